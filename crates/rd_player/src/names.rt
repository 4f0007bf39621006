//! What the report calls faults: the names of their kinds, of data files and of fields.
ghost use Rattle.std.specs.Prelude.{◌≡◌, option_map};
ghost use Rattle.rd_run.specs.Reports.{data_kind, file_word, kind_of, op_key, op_kind, refused_kind, ucd_kind};

use rd_base::Ch;
use rd_files::{DataFile, DataKind};
use rd_run::ScriptFault;
use rd_script::OpFault;
use rd_state::Refused;
use rd_ucd::UcdFault;

/// The name of a fault's kind.
pub fn kind_of(fault: &ScriptFault) -> &'static str
    ensures { result.now ≡ kind_of fault.now }
{
    match fault {
        ScriptFault::TooLong => "TooLong",
        ScriptFault::TooMany => "TooMany",
        ScriptFault::Op(fault) => op_kind(fault),
        ScriptFault::Refused(refused) => refused_kind(*refused),
    }
}

/// The name of the kind of a line that is no op.
pub fn op_kind(fault: &OpFault) -> &'static str
    ensures { result.now ≡ op_kind fault.now }
{
    match fault {
        OpFault::NotJson => "NotJson",
        OpFault::NotObject => "NotObject",
        OpFault::NoSuchOp => "NoSuchOp",
        OpFault::Missing(_) => "Missing",
        OpFault::BadField(_) => "BadField",
        OpFault::Extra(_) => "Extra",
        OpFault::Memory => "Memory",
    }
}

/// The name of a refusal.
pub fn refused_kind(refused: Refused) -> &'static str
    ensures { result.now ≡ refused_kind refused }
{
    match refused {
        Refused::NoBuffer => "NoBuffer",
        Refused::NoWindow => "NoWindow",
        Refused::NoOverlay => "NoOverlay",
        Refused::NoObject => "NoObject",
        Refused::OutOfRange => "OutOfRange",
        Refused::NameTaken => "NameTaken",
        Refused::TextTooLarge => "TextTooLarge",
        Refused::ObjectTooLong => "ObjectTooLong",
        Refused::TooManyBuffers => "TooManyBuffers",
        Refused::TooManyWindows => "TooManyWindows",
        Refused::TooManyOverlays => "TooManyOverlays",
        Refused::TooManyObjects => "TooManyObjects",
        Refused::TooSmall => "TooSmall",
        Refused::LastWindow => "LastWindow",
        Refused::BadFormat(_) => "BadFormat",
        Refused::NotShown => "NotShown",
        Refused::Memory => "Memory",
    }
}

/// The name of a data file.
pub fn file_word(file: DataFile) -> &'static str
    ensures { result.now ≡ file_word file }
{
    match file {
        DataFile::ClassFile => "data",
        DataFile::MirrorFile => "mirror",
        DataFile::BracketFile => "brackets",
    }
}

/// The name of what is wrong with a data file.
pub fn data_kind(kind: DataKind) -> &'static str
    ensures { result.now ≡ data_kind kind }
{
    match kind {
        DataKind::TooLarge => "TooLarge",
        DataKind::Bad(fault) => ucd_kind(fault),
    }
}

/// The name of the kind of a bad line of a data file.
fn ucd_kind(fault: UcdFault) -> &'static str
    ensures { result.now ≡ ucd_kind fault }
{
    match fault {
        UcdFault::BadLine(_) => "BadLine",
        UcdFault::BadCode(_) => "BadCode",
        UcdFault::BadClass(_) => "BadClass",
        UcdFault::NotAscending(_) => "NotAscending",
        UcdFault::BadRange(_) => "BadRange",
        UcdFault::Memory => "Memory",
    }
}

/// The key that a fault names.
pub fn op_key(fault: &OpFault) -> Option<&[Ch]>
    ensures { option_map (λ key. key.now) result ≡ op_key fault.now }
{
    match fault {
        OpFault::Missing(key) => Some(key.as_slice()),
        OpFault::BadField(key) => Some(key.as_slice()),
        OpFault::Extra(key) => Some(key.as_slice()),
        _ => None,
    }
}
