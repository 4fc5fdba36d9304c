// The default parameters and those of the five profiles, one function each, and those of a seal that names no profile: nothing is asked and nothing refused.
ghost use Rattle.std.specs.Prelude.{◌≡◌, not, eqb};
ghost use Rattle.theory_record.specs.Profiles.{FastChunk, Balanced, CompactWrap, DeepWrap, FirstDefault, parameters_of, fields_of};
ghost use Rattle.theory_record.specs.Profiles.{No, default_parameters, checked_under};
ghost use Rattle.export_dequmlo.specs.Answers.{parameters};

use export_dequmlo::parameters::Parameters;

// k 2, 40 queries, "magnetar/pcs/default".
#[unsafe(no_mangle)]
pub extern "C" fn dequmlo_default_parameters() -> Parameters
    ensures { parameters result ≡ fields_of default_parameters }
{
    export_dequmlo::parameters::dequmlo_default_parameters()
}

// k 1, 40 queries, "magnetar/pcs/fastchunk".
#[unsafe(no_mangle)]
pub extern "C" fn dequmlo_fastchunk() -> Parameters
    ensures { parameters result ≡ fields_of (parameters_of FastChunk) }
{
    export_dequmlo::parameters::dequmlo_fastchunk()
}

// k 2, 40 queries, "magnetar/pcs/balanced".
#[unsafe(no_mangle)]
pub extern "C" fn dequmlo_balanced() -> Parameters
    ensures { parameters result ≡ fields_of (parameters_of Balanced) }
{
    export_dequmlo::parameters::dequmlo_balanced()
}

// k 3, 20 queries, "magnetar/pcs/compactwrap".
#[unsafe(no_mangle)]
pub extern "C" fn dequmlo_compactwrap() -> Parameters
    ensures { parameters result ≡ fields_of (parameters_of CompactWrap) }
{
    export_dequmlo::parameters::dequmlo_compactwrap()
}

// k 4, 14 queries, "magnetar/pcs/deepwrap".
#[unsafe(no_mangle)]
pub extern "C" fn dequmlo_deepwrap() -> Parameters
    ensures { parameters result ≡ fields_of (parameters_of DeepWrap) }
{
    export_dequmlo::parameters::dequmlo_deepwrap()
}

// k 1, 40 queries, "magnetar/pcs/default": what the default was before it had k 2.
#[unsafe(no_mangle)]
pub extern "C" fn dequmlo_firstdefault() -> Parameters
    ensures { parameters result ≡ fields_of (parameters_of FirstDefault) }
{
    export_dequmlo::parameters::dequmlo_firstdefault()
}

// Under which parameters a seal is checked that names no profile: the first default's where it is older than the change of the default, else the
// default's. Every number but 0 says that it is older.
#[unsafe(no_mangle)]
pub extern "C" fn dequmlo_unnamed_parameters(older: u32) -> Parameters
    ensures { parameters result ≡ fields_of (checked_under No (not (eqb older 0))) }
{
    export_dequmlo::parameters::dequmlo_unnamed_parameters(older)
}
