// The domain of a level, as an entry: its length, and its bytes.
ghost use Rattle.std.specs.Prelude.{◌≡◌, ◌<◌, eqb, length};
ghost use Rattle.theory_laws.specs.Questions.{on_done};
ghost use Rattle.theory_laws.specs.Refusals.{answered};
ghost use Rattle.theory_record.specs.Domain.{decimal, level_domain};
ghost use Rattle.code_level.specs.Domain.{domain_number, domain_length_of, length_answer};

use crate::put_domain;
use theory_laws::Refusal;

// How many digits a number below 100 has.
fn digits(x: usize) -> usize
    requires { x < 100 }
    ensures { result ≡ length (decimal x) }
{
    if x < 10 {
        return 1;
    }
    2
}

// How long the domain of level l is: 4, 7.
pub fn level_domain_length(base: &[u8], l: usize) -> Result<usize, Refusal>
    ensures { length_answer result ≡ domain_length_of base.now l }
{
    if l > 20 {
        return Err(Refusal::Parameters);
    }
    if base.len() > 200 {
        return Err(Refusal::Domain);
    }
    Ok(base.len() + 7 + digits(l))
}

// Whether a lent length is that of the domain of a level below 100.
fn holds_domain(out: usize, base: &[u8], l: usize) -> bool
    requires { l < 100 }
    ensures { result ≡ eqb out (length (level_domain base.now l)) }
{
    let behind = 7 + digits(l);
    if out < behind {
        return false;
    }
    out - behind == base.len()
}

// 4, 5 and 7.
fn questions(base: &[u8], l: usize, out: usize) -> Result<(), Refusal>
    ensures { answered result ≡ domain_number base.now l out }
{
    if l > 20 {
        return Err(Refusal::Parameters);
    }
    if !holds_domain(out, base, l) {
        return Err(Refusal::Length);
    }
    if base.len() > 200 {
        return Err(Refusal::Domain);
    }
    Ok(())
}

// The domain of level l, into a buffer of its length. It refuses a level past 20 with 4, a length that is not the domain's with 5, and a
// base domain of more than 200 bytes with 7.
pub fn level_domain(base: &[u8], l: usize, out: &mut [u8]) -> Result<(), Refusal>
    ensures value { answered result ≡ domain_number base.now l (length out.old) }
    ensures out_after { out.new ≡ on_done (answered result) (level_domain base.now l) out.old }
{
    questions(base, l, out.len())?;
    put_domain(out, base, l);
    Ok(())
}
