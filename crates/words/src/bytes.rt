// The tests of one byte: is it a blank, or is it none?
ghost use Rattle.std.specs.Prelude.{◌≡◌};
ghost use Rattle.words.specs.Bytes.{blank, solid};

pub(crate) fn is_blank(x: u8) -> bool
    ensures { result ≡ blank x }
{
    x == b' ' || x == b'\r' || x == b'\n'
}

pub(crate) fn is_solid(x: u8) -> bool
    ensures { result ≡ solid x }
{
    !is_blank(x)
}
