// The C interface as a static library: each export hands on to `console`'s function of the same name, and promises what that promises.
// A crate is a library or a static library: `console` is the one that other crates and theorems name, this is the one that C links.
#![tactic(auto)]

ghost use Rattle.std.specs.Prelude.{◌≡◌};
ghost use Rattle.console.specs.Console.{cad_read_of, cad_read_area, cad_read_position, cad_read_element, cad_write_of, cad_write_area, cad_write_bits};

// Reads the first `bits` bits of the message and lays the value's bytes in `value`.
#[unsafe(no_mangle)]
pub extern "C" fn cad_read(profile: &[u8], message: &[u8], bits: usize, value: &mut [u8]) -> u32
    ensures { (result ≡ cad_read_of profile.now message.now bits value.old)
        × (value.new ≡ cad_read_area profile.now message.now bits value.old) }
{
    console::cad_read(profile, message, bits, value)
}

// The same; with a 4 also where the element that did not fit begins, and which one it is.
#[unsafe(no_mangle)]
pub extern "C" fn cad_read_at(
    profile: &[u8],
    message: &[u8],
    bits: usize,
    value: &mut [u8],
    position: &mut u32,
    element: &mut u32,
) -> u32
    ensures { (result ≡ cad_read_of profile.now message.now bits value.old)
        × ((value.new ≡ cad_read_area profile.now message.now bits value.old)
        × ((position.new ≡ cad_read_position profile.now message.now bits value.old position.old)
        × (element.new ≡ cad_read_element profile.now message.now bits value.old element.old))) }
{
    console::cad_read_at(profile, message, bits, value, position, element)
}

// Writes the message of the value's bytes from the first byte of `message` on, and its length into `bits`.
#[unsafe(no_mangle)]
pub extern "C" fn cad_write(
    profile: &[u8],
    value: &[u8],
    message: &mut [u8],
    bits: &mut usize,
) -> u32
    ensures { (result ≡ cad_write_of profile.now value.now message.old)
        × ((message.new ≡ cad_write_area profile.now value.now message.old)
        × (bits.new ≡ cad_write_bits profile.now value.now message.old bits.old)) }
{
    console::cad_write(profile, value, message, bits)
}
