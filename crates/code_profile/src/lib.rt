// The parameters of commitments, after `PcsParams`: the default, the five profiles, and those that a seal is checked and written under.
#![tactic(auto)]

ghost use Rattle.std.specs.Prelude.{◌≡◌};
ghost use Rattle.theory_record.specs.Profiles.{FastChunk, Balanced, CompactWrap, DeepWrap, FirstDefault, parameters_of, fields_of};
ghost use Rattle.theory_record.specs.Profiles.{No, default_parameters, checked_under, written_under};
ghost use Rattle.code_profile.specs.Meaning.{parameters, profile, named};

#[derive(Clone, Copy, Debug, PartialEq, Eq)]
pub enum Profile {
    FastChunk,
    Balanced,
    CompactWrap,
    DeepWrap,
    FirstDefault,
}

// k, how many queries, and the base domain: the first `length` bytes of `domain`, zeros after them. The 24 bytes are those of the C interface, which
// hands over no address of them.
#[derive(Clone, Copy, Debug, PartialEq, Eq)]
pub struct Parameters {
    pub k: usize,
    pub queries: usize,
    pub domain: [u8; 24],
    pub length: usize,
}

const DEFAULT: Parameters = Parameters {
    k: 2,
    queries: 40,
    domain: *b"magnetar/pcs/default\0\0\0\0",
    length: 20,
};

const FAST_CHUNK: Parameters = Parameters {
    k: 1,
    queries: 40,
    domain: *b"magnetar/pcs/fastchunk\0\0",
    length: 22,
};

const BALANCED: Parameters = Parameters {
    k: 2,
    queries: 40,
    domain: *b"magnetar/pcs/balanced\0\0\0",
    length: 21,
};

const COMPACT_WRAP: Parameters = Parameters {
    k: 3,
    queries: 20,
    domain: *b"magnetar/pcs/compactwrap",
    length: 24,
};

const DEEP_WRAP: Parameters = Parameters {
    k: 4,
    queries: 14,
    domain: *b"magnetar/pcs/deepwrap\0\0\0",
    length: 21,
};

// What the default was before it had k 2.
const FIRST_DEFAULT: Parameters = Parameters {
    k: 1,
    queries: 40,
    domain: *b"magnetar/pcs/default\0\0\0\0",
    length: 20,
};

// k 2, 40 queries, "magnetar/pcs/default".
pub fn default_parameters() -> Parameters
    ensures { parameters result ≡ fields_of default_parameters }
{
    DEFAULT
}

// The parameters of a profile.
pub fn parameters_of(p: Profile) -> Parameters
    ensures { parameters result ≡ fields_of (parameters_of (profile p)) }
{
    match p {
        Profile::FastChunk => FAST_CHUNK,
        Profile::Balanced => BALANCED,
        Profile::CompactWrap => COMPACT_WRAP,
        Profile::DeepWrap => DEEP_WRAP,
        Profile::FirstDefault => FIRST_DEFAULT,
    }
}

// Under which parameters a seal is checked that names no profile: the first default's where it is older than the change of the default, else the default's.
pub fn unnamed_parameters(older: bool) -> Parameters
    ensures { parameters result ≡ fields_of (checked_under No older) }
{
    if older { FIRST_DEFAULT } else { DEFAULT }
}

// Under which parameters a seal is checked: those of the profile that it names, if it names one, or else those of a seal that names none.
pub fn seal_parameters(name: Option<Profile>, older: bool) -> Parameters
    ensures { parameters result ≡ fields_of (checked_under (named name) older) }
{
    match name {
        Some(p) => parameters_of(p),
        None => unnamed_parameters(older),
    }
}

// Under which parameters a seal is written: those of the profile that its writer names, or else the default's.
pub fn writer_parameters(name: Option<Profile>) -> Parameters
    ensures { parameters result ≡ fields_of (written_under (named name)) }
{
    match name {
        Some(p) => parameters_of(p),
        None => DEFAULT,
    }
}
