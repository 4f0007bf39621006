//! The names of the bidirectional classes.
ghost use Rattle.std.specs.Prelude.{◌≡◌};
ghost use Rattle.rd_ucd.specs.Names.{named, same_class};

use rd_base::Class;

/// The class of a name.
pub fn class_named(name: &[u8]) -> Option<Class>
    ensures { result ≡ named name.now }
{
    match name {
        b"L" => Some(Class::L),
        b"R" => Some(Class::R),
        b"AL" => Some(Class::AL),
        b"EN" => Some(Class::EN),
        b"ES" => Some(Class::ES),
        b"ET" => Some(Class::ET),
        b"AN" => Some(Class::AN),
        b"CS" => Some(Class::CS),
        b"NSM" => Some(Class::NSM),
        b"BN" => Some(Class::BN),
        b"B" => Some(Class::B),
        b"S" => Some(Class::S),
        b"WS" => Some(Class::WS),
        b"ON" => Some(Class::ON),
        b"LRE" => Some(Class::LRE),
        b"LRO" => Some(Class::LRO),
        b"RLE" => Some(Class::RLE),
        b"RLO" => Some(Class::RLO),
        b"PDF" => Some(Class::PDF),
        b"LRI" => Some(Class::LRI),
        b"RLI" => Some(Class::RLI),
        b"FSI" => Some(Class::FSI),
        b"PDI" => Some(Class::PDI),
        _ => None,
    }
}

/// Whether two classes are one.
pub fn same_class(a: Class, b: Class) -> bool
    ensures { result ≡ same_class a b }
{
    a == b
}
