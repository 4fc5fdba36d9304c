// Answers request lines on the hash, on trees, levels and records, and on the whole run: the lines of the files in data/, each of which says
// where its answers come from. tools/vectors.py writes the lines and what is to be printed.
#![tactic(auto)]

mod hash;
mod key;
mod level;
mod many;
mod pair;
mod record;
mod tree;
mod whole;

use std::alloc::{AllocError, Global};
use std::io;
use test_lines::answer::{Answer, no_room};
use test_lines::files::answer_files_within;
use test_lines::request::{Lent, Operation, Request, Rooms};

const OPERATIONS: [Operation; 43] = [
    Operation {
        name: "damaged_query",
        letters: "nbnnnnwbb",
    },
    Operation {
        name: "damaged_tail",
        letters: "nbnnnbwb",
    },
    Operation {
        name: "prefixes_query",
        letters: "bnnnnwbb",
    },
    Operation {
        name: "prefixes_tail",
        letters: "bnnnbwb",
    },
    Operation {
        name: "blake3",
        letters: "bd",
    },
    Operation {
        name: "serialize_parts",
        letters: "blB",
    },
    Operation {
        name: "pieces",
        letters: "bnnd",
    },
    Operation {
        name: "fed",
        letters: "bnbd",
    },
    Operation {
        name: "state",
        letters: "lbB",
    },
    Operation {
        name: "leaf_digest",
        letters: "bnnnwd",
    },
    Operation {
        name: "node_digest",
        letters: "bnbbd",
    },
    Operation {
        name: "build",
        letters: "bnnwB",
    },
    Operation {
        name: "open",
        letters: "nnnbB",
    },
    Operation {
        name: "root_of_path",
        letters: "bnnnwbd",
    },
    Operation {
        name: "leaf_message",
        letters: "bnnnw",
    },
    Operation {
        name: "leaves",
        letters: "bnnnwB",
    },
    Operation {
        name: "parents",
        letters: "bnbB",
    },
    Operation {
        name: "fold_tree_width",
        letters: "nn",
    },
    Operation {
        name: "level_domain",
        letters: "bnB",
    },
    Operation {
        name: "profile",
        letters: "nB",
    },
    Operation {
        name: "domain_length",
        letters: "bn",
    },
    Operation {
        name: "domain_into",
        letters: "bnB",
    },
    Operation {
        name: "seal_parameters",
        letters: "nnB",
    },
    Operation {
        name: "writer_parameters",
        letters: "nB",
    },
    Operation {
        name: "check_query",
        letters: "bnnnnwbb",
    },
    Operation {
        name: "check_tail",
        letters: "bnnnbwb",
    },
    Operation {
        name: "build_query",
        letters: "nnnnwbB",
    },
    Operation {
        name: "build_tail",
        letters: "nnnwbB",
    },
    Operation {
        name: "sizes",
        letters: "nnn",
    },
    Operation {
        name: "commit",
        letters: "nnnbwWWLB",
    },
    Operation {
        name: "fold_levels",
        letters: "nnnbwwWWBB",
    },
    Operation {
        name: "tails",
        letters: "bW",
    },
    Operation {
        name: "compare",
        letters: "bnnnnwbbbBB",
    },
    Operation {
        name: "walk",
        letters: "nnnbbBB",
    },
    Operation {
        name: "run",
        letters: "nnnnbwlwwbblLWBB",
    },
    Operation {
        name: "next_part",
        letters: "nnnwnwW",
    },
    Operation {
        name: "level_leaves",
        letters: "nnnnbnwB",
    },
    Operation {
        name: "level_parents",
        letters: "nnnbnbB",
    },
    Operation {
        name: "level_tree",
        letters: "nnnnbwB",
    },
    Operation {
        name: "keyed_blake3",
        letters: "bbd",
    },
    Operation {
        name: "derive_key",
        letters: "bbd",
    },
    Operation {
        name: "keyed_pieces",
        letters: "bbnnd",
    },
    Operation {
        name: "derived_pieces",
        letters: "bbnnd",
    },
];

// What a request has room for; lines set the key of trees.
const ROOMS: Rooms = Rooms {
    words: [8192, 2048],
    bytes: [65536, 2048],
    key: true,
};

// What a request is answered.
fn answer(alloc: Global, request: &Request, lent: &mut Lent) -> Result<Answer, AllocError> {
    Ok(match request.name.as_str() {
        "damaged_query" => many::damaged_query(request)?,
        "damaged_tail" => many::damaged_tail(request)?,
        "prefixes_query" => many::prefixes_query(request),
        "prefixes_tail" => many::prefixes_tail(request),
        "blake3" => hash::blake3(request, lent),
        "serialize_parts" => hash::serialize_parts(alloc, request, lent)?,
        "pieces" => hash::pieces(request, lent),
        "fed" => hash::fed(request, lent),
        "state" => hash::state(alloc, request, lent)?,
        "leaf_digest" => tree::leaf_digest(request, lent),
        "node_digest" => tree::node_digest(request, lent),
        "build" => tree::build(request, lent),
        "open" => tree::open(request, lent),
        "root_of_path" => tree::root_of_path(request, lent),
        "leaf_message" => tree::leaf_message(request, lent),
        "leaves" => tree::leaves(request, lent),
        "parents" => tree::parents(request, lent),
        "fold_tree_width" => level::fold_tree_width(request, lent),
        "level_domain" => level::level_domain(request, lent),
        "profile" => level::profile(request, lent),
        "domain_length" => level::domain_length(request, lent),
        "domain_into" => level::domain_into(request, lent),
        "seal_parameters" => level::seal_parameters(request, lent),
        "writer_parameters" => level::writer_parameters(request, lent),
        "check_query" => record::check_query(request, lent),
        "check_tail" => record::check_tail(request, lent),
        "build_query" => record::build_query(request, lent),
        "build_tail" => record::build_tail(request, lent),
        "sizes" => record::sizes(request, lent),
        "commit" => level::commit(request, lent),
        "fold_levels" => level::fold_levels(request, lent),
        "tails" => level::tails(request, lent),
        "compare" => pair::compare(request, lent),
        "walk" => pair::walk(request, lent),
        "run" => whole::run(alloc, request, lent)?,
        "next_part" => level::next_part(request, lent),
        "level_leaves" => level::level_leaves(request, lent),
        "level_parents" => level::level_parents(request, lent),
        "level_tree" => level::level_tree(request, lent),
        "keyed_blake3" => hash::keyed_blake3(request, lent),
        "derive_key" => hash::derive_key(request, lent),
        "keyed_pieces" => hash::keyed_pieces(request, lent),
        "derived_pieces" => hash::derived_pieces(request, lent),
        _ => no_room(),
    })
}

fn main(rt: HostRuntime) -> io::Result<()> {
    answer_files_within(
        &rt,
        &OPERATIONS,
        ROOMS,
        answer,
        &[
            "tree/vectors.txt",
            "tree/parts.txt",
            "tree/trees.txt",
            "tree/openings.txt",
            "tree/refusals.txt",
            "tree/states.txt",
            "tree/differences.txt",
            "tree/keyed_vectors.txt",
            "tree/derived_vectors.txt",
            "tree/keyed.txt",
            "tree/keyed_openings.txt",
            "tree/rust_hash.txt",
            "tree/rust_trees.txt",
            "record/levels.txt",
            "record/all_levels.txt",
            "record/accepted.txt",
            "record/query.txt",
            "record/tail.txt",
            "record/build.txt",
            "record/compare.txt",
            "record/walks.txt",
            "record/tail_list.txt",
            "record/run.txt",
            "record/differences.txt",
            "record/wide_levels.txt",
            "record/wide.txt",
            "record/wide_large.txt",
            "record/wide_most.txt",
            "record/keyed_levels.txt",
            "record/keyed.txt",
            "record/keyed_large.txt",
            "record/keyed_build.txt",
            "record/keyed_run.txt",
            "record/rust_levels.txt",
            "record/rust_records.txt",
        ],
    )
}
