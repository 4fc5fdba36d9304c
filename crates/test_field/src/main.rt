// Answers request lines on words, tables of words, ring switching, the code and blocks: the lines of the files in data/, each of which says where
// its answers come from. tools/vectors.py writes the lines and what is to be printed.
#![tactic(auto)]

mod blocks;
mod code;
mod field;
mod half_folded;
mod ring;

use std::alloc::{AllocError, Global};
use std::io;
use test_lines::answer::{Answer, no_room};
use test_lines::files::answer_files_within;
use test_lines::request::{Lent, Operation, Request, Rooms};

const OPERATIONS: [Operation; 32] = [
    Operation {
        name: "add",
        letters: "wwo",
    },
    Operation {
        name: "mul",
        letters: "wwo",
    },
    Operation {
        name: "square",
        letters: "wo",
    },
    Operation {
        name: "inv",
        letters: "wo",
    },
    Operation {
        name: "phi_c",
        letters: "wwo",
    },
    Operation {
        name: "phi_tab",
        letters: "wwo",
    },
    Operation {
        name: "eq_coefficients",
        letters: "wc",
    },
    Operation {
        name: "square_by_table",
        letters: "wo",
    },
    Operation {
        name: "pack_table",
        letters: "bW",
    },
    Operation {
        name: "eq_table",
        letters: "nwW",
    },
    Operation {
        name: "mul_run",
        letters: "wwW",
    },
    Operation {
        name: "axpy_run",
        letters: "wwwW",
    },
    Operation {
        name: "partial_evals",
        letters: "nwwW",
    },
    Operation {
        name: "fold_partials",
        letters: "wwo",
    },
    Operation {
        name: "materialize",
        letters: "nwwW",
    },
    Operation {
        name: "eval_at",
        letters: "nwwwo",
    },
    Operation {
        name: "extension_sides",
        letters: "nwwwWp",
    },
    Operation {
        name: "fold_sides",
        letters: "nwwwWp",
    },
    Operation {
        name: "derive",
        letters: "nnbW",
    },
    Operation {
        name: "encode",
        letters: "nnwwW",
    },
    Operation {
        name: "gamma_message",
        letters: "nnbnn",
    },
    Operation {
        name: "codeword_block",
        letters: "nnnwwW",
    },
    Operation {
        name: "fold_part",
        letters: "nnnwnwW",
    },
    Operation {
        name: "codeword_half",
        letters: "nnnwwW",
    },
    Operation {
        name: "import_block",
        letters: "bo",
    },
    Operation {
        name: "export_block",
        letters: "wB",
    },
    Operation {
        name: "import_run",
        letters: "bW",
    },
    Operation {
        name: "export_run",
        letters: "wB",
    },
    Operation {
        name: "ghash",
        letters: "bbB",
    },
    Operation {
        name: "l_of",
        letters: "nnnnlwW",
    },
    Operation {
        name: "fold",
        letters: "nnnnwLwW",
    },
    Operation {
        name: "earlier_reading",
        letters: "nnnL",
    },
];

// What a request has room for; no line sets a key.
const ROOMS: Rooms = Rooms {
    words: [8192, 4],
    bytes: [8192, 0],
    key: false,
};

// What a request is answered.
fn answer(_alloc: Global, request: &Request, lent: &mut Lent) -> Result<Answer, AllocError> {
    Ok(match request.name.as_str() {
        "add" => field::add(request, lent),
        "mul" => field::mul(request, lent),
        "square" => field::square(request, lent),
        "inv" => field::inv(request, lent),
        "phi_c" => field::phi_c(request, lent),
        "phi_tab" => field::phi_tab(request, lent),
        "eq_coefficients" => field::eq_coefficients(request, lent),
        "square_by_table" => field::square_by_table(request, lent),
        "pack_table" => field::pack_table(request, lent),
        "eq_table" => field::eq_table(request, lent),
        "mul_run" => field::mul_run(request, lent),
        "axpy_run" => field::axpy_run(request, lent),
        "partial_evals" => ring::partial_evals(request, lent),
        "fold_partials" => ring::fold_partials(request, lent),
        "materialize" => ring::materialize(request, lent),
        "eval_at" => ring::eval_at(request, lent),
        "extension_sides" => ring::extension_sides(request, lent),
        "fold_sides" => ring::fold_sides(request, lent),
        "derive" => code::derive(request, lent),
        "encode" => code::encode(request, lent),
        "gamma_message" => code::gamma_message(request, lent),
        "codeword_block" => code::codeword_block(request, lent),
        "fold_part" => code::fold_part(request, lent),
        "codeword_half" => code::codeword_half(request, lent),
        "import_block" => blocks::import_block(request, lent),
        "export_block" => blocks::export_block(request, lent),
        "import_run" => blocks::import_run(request, lent),
        "export_run" => blocks::export_run(request, lent),
        "ghash" => blocks::ghash(request, lent),
        "l_of" => half_folded::l_of(request, lent),
        "fold" => half_folded::fold(request, lent),
        "earlier_reading" => half_folded::earlier_reading(request, lent),
        _ => no_room(),
    })
}

fn main(rt: HostRuntime) -> io::Result<()> {
    answer_files_within(
        &rt,
        &OPERATIONS,
        ROOMS,
        answer,
        &[
            "small.txt",
            "words.txt",
            "packings.txt",
            "tables.txt",
            "ring.txt",
            "code.txt",
            "differences.txt",
            "blocks.txt",
            "gcm.txt",
            "half_folded.txt",
            "rust_field.txt",
            "rust_runs.txt",
            "rust_ring.txt",
            "rust_code.txt",
        ],
    )
}
