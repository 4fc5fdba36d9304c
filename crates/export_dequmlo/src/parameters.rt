// The default parameters and those of the five profiles, one function each, and those of a seal that names no profile: nothing is asked and nothing refused.
ghost use Rattle.std.specs.Prelude.{◌≡◌, not, eqb};
ghost use Rattle.theory_record.specs.Profiles.{FastChunk, Balanced, CompactWrap, DeepWrap, FirstDefault, parameters_of, fields_of};
ghost use Rattle.theory_record.specs.Profiles.{No, default_parameters, checked_under};
ghost use Rattle.code_profile.specs.Meaning as M;
ghost use Rattle.export_dequmlo.specs.Answers.{parameters};

use code_profile::Profile;

// k, how many queries, and the base domain: the first `length` bytes of `domain`, zeros after them.
#[repr(C)]
#[derive(Clone, Copy)]
pub struct Parameters {
    pub k: usize,
    pub queries: usize,
    pub domain: [u8; 24],
    pub length: usize,
}

// The parameters as they are exported.
fn exported(p: code_profile::Parameters) -> Parameters
    ensures { parameters result ≡ M.parameters p }
{
    let domain = p.domain;
    Parameters {
        k: p.k,
        queries: p.queries,
        domain,
        length: p.length,
    }
}

// The parameters of a profile.
fn exported_of(p: Profile) -> Parameters
    ensures { parameters result ≡ fields_of (parameters_of (M.profile p)) }
{
    exported(code_profile::parameters_of(p))
}

// k 2, 40 queries, "magnetar/pcs/default".
pub fn dequmlo_default_parameters() -> Parameters
    ensures { parameters result ≡ fields_of default_parameters }
{
    exported(code_profile::default_parameters())
}

// k 1, 40 queries, "magnetar/pcs/fastchunk".
pub fn dequmlo_fastchunk() -> Parameters
    ensures { parameters result ≡ fields_of (parameters_of FastChunk) }
{
    exported_of(Profile::FastChunk)
}

// k 2, 40 queries, "magnetar/pcs/balanced".
pub fn dequmlo_balanced() -> Parameters
    ensures { parameters result ≡ fields_of (parameters_of Balanced) }
{
    exported_of(Profile::Balanced)
}

// k 3, 20 queries, "magnetar/pcs/compactwrap".
pub fn dequmlo_compactwrap() -> Parameters
    ensures { parameters result ≡ fields_of (parameters_of CompactWrap) }
{
    exported_of(Profile::CompactWrap)
}

// k 4, 14 queries, "magnetar/pcs/deepwrap".
pub fn dequmlo_deepwrap() -> Parameters
    ensures { parameters result ≡ fields_of (parameters_of DeepWrap) }
{
    exported_of(Profile::DeepWrap)
}

// k 1, 40 queries, "magnetar/pcs/default": what the default was before it had k 2.
pub fn dequmlo_firstdefault() -> Parameters
    ensures { parameters result ≡ fields_of (parameters_of FirstDefault) }
{
    exported_of(Profile::FirstDefault)
}

// Under which parameters a seal is checked that names no profile: the first default's where it is older than the change of the default, else the
// default's. Every number but 0 says that it is older.
pub fn dequmlo_unnamed_parameters(older: u32) -> Parameters
    ensures { parameters result ≡ fields_of (checked_under No (not (eqb older 0))) }
{
    exported(code_profile::unnamed_parameters(older != 0))
}
