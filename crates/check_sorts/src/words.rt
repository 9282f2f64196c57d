// Names that are words of the language.

ghost use Rattle.std.specs.Prelude.{◌≡◌};
ghost use Rattle.capl_meaning.specs.Names.{direction};

/// The number of RX and rx, which is 0, and of TX and tx, which is 1; None of other names.
pub fn direction(name: &[u8]) -> Option<u8>
    ensures { result ≡ direction name.now }
{
    match name {
        b"RX" | b"rx" => Some(0),
        b"TX" | b"tx" => Some(1),
        _ => None,
    }
}
