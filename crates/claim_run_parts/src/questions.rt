// The questions that a whole run puts. Those that put 5 require that 4 was answered.
ghost use Rattle.std.specs.Prelude.{◌≡◌, ◌≤◌};
ghost use Rattle.theory_laws.specs.Questions.{first_no};
ghost use Rattle.theory_laws.specs.Refusals.{answered};
ghost use Rattle.theory_record.specs.Widths.{widths_of};
ghost use Rattle.theory_record.specs.Accepted.{SizesFit};
ghost use Rattle.claim_run_parts.specs.Questions.{input_questions, deposit_questions, record_questions, last_questions, run_number};

use code_codeword::sizes::holds;
use code_level::{level_length, levels_length, size_questions, trees_size};
use compare_records::MESSAGE_BUFFER;
use record_query_build::query_size;
use record_tail_build::tail_size;
use theory_laws::Refusal;
use theory_record::WidthSet;

// How long each thing is that a run is lent: the base domain, what is read, and the room for what is left. Words count as two halves each.
#[derive(Clone, Copy, Debug, PartialEq, Eq)]
pub struct Lengths {
    pub base: usize,
    pub table: usize,
    pub calls: usize,
    pub challenges: usize,
    pub gammas: usize,
    pub levels: usize,
    pub coordinates: usize,
    pub half: usize,
    pub kept: usize,
    pub trees: usize,
    pub roots: usize,
    pub query: usize,
    pub tail: usize,
    pub one: usize,
    pub two: usize,
}

impl Lengths {
    // 5, of the table, the calls and their challenges.
    fn input_questions(self, n: usize) -> Result<(), Refusal>
        requires { n ≤ 20 }
        ensures { answered result ≡ first_no (input_questions n self.table self.calls self.challenges) }
    {
        if !holds(self.table, n) {
            return Err(Refusal::Length);
        }
        if self.calls != 5 * (self.calls / 5) {
            return Err(Refusal::Length);
        }
        if self.challenges != 2 * (self.calls / 5) {
            return Err(Refusal::Length);
        }
        Ok(())
    }

    // 5, of the room for the gammas, the levels, the list of coordinates, a fold, the challenges, the trees and the roots.
    fn deposit_questions(self, set: WidthSet, n: usize, k: usize) -> Result<(), Refusal>
        requires { SizesFit n k }
        ensures { answered result
            ≡ first_no (deposit_questions (widths_of set) n k self.gammas self.levels self.coordinates self.half self.kept self.trees self.roots) }
    {
        if self.gammas != 2 * (k * n) {
            return Err(Refusal::Length);
        }
        if self.levels != 2 * levels_length(n, k) {
            return Err(Refusal::Length);
        }
        if self.coordinates != n {
            return Err(Refusal::Length);
        }
        if self.half != level_length(n, k, 0) {
            return Err(Refusal::Length);
        }
        if self.kept != 2 * n {
            return Err(Refusal::Length);
        }
        if self.trees != trees_size(set, n, k) {
            return Err(Refusal::Length);
        }
        if self.roots != 32 * (n + 1) {
            return Err(Refusal::Length);
        }
        Ok(())
    }

    // 5, of the room for the records and the messages.
    fn record_questions(self, set: WidthSet, n: usize, k: usize) -> Result<(), Refusal>
        requires { SizesFit n k }
        ensures { answered result ≡ first_no (record_questions (widths_of set) n k self.query self.tail self.one self.two) }
    {
        if self.query != query_size(set, n, k) {
            return Err(Refusal::Length);
        }
        if self.tail != tail_size(set, n, k) {
            return Err(Refusal::Length);
        }
        if self.one != MESSAGE_BUFFER {
            return Err(Refusal::Length);
        }
        if self.two != MESSAGE_BUFFER {
            return Err(Refusal::Length);
        }
        Ok(())
    }

    // 7 and 11.
    fn last_questions(self, n: usize, k: usize, position: usize) -> Result<(), Refusal>
        requires { SizesFit n k }
        ensures { answered result ≡ first_no (last_questions n k self.base position) }
    {
        if self.base > 200 {
            return Err(Refusal::Domain);
        }
        if position >= level_length(n, k, 0) {
            return Err(Refusal::Place);
        }
        Ok(())
    }

    // All questions of a run.
    pub fn questions(
        self,
        set: WidthSet,
        n: usize,
        k: usize,
        position: usize,
    ) -> Result<(), Refusal>
        ensures { answered result
            ≡ run_number (widths_of set) n k position self.base self.table self.calls self.challenges self.gammas self.levels self.coordinates
            self.half self.kept self.trees self.roots self.query self.tail self.one self.two }
    {
        size_questions(n, k)?;
        self.input_questions(n)?;
        self.deposit_questions(set, n, k)?;
        self.record_questions(set, n, k)?;
        self.last_questions(n, k, position)
    }
}
