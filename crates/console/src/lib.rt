// The C interface: reading and writing messages on numbers and byte buffers. Profile and value cross as bytes (specs/Profiles and
// specs/Values of `layouts`); any other bytes get 1 or 22. Each function answers 0 or the refusal's number, and a refusal changes
// nothing that was lent but the two numbers that tell of a 4. `console_c` exports the three functions to C.
#![tactic(auto)]

ghost use Rattle.std.specs.Prelude.{◌≡◌, true, false, IfSome};
ghost use Rattle.codec.specs.Stops.{no_stop};
ghost use Rattle.console.specs.Drawing.{ReadsBack, Drawn};
ghost use Rattle.console.specs.Console.{Refused, stop_of, cad_read_stop, cad_read_of, cad_read_area, cad_read_position, cad_read_element, cad_write_of, cad_write_area, cad_write_bits};

use codec::Stop;

mod area;
mod bytes;
mod draw;
mod group;
mod lay;
mod number;
mod part;
mod profiles;
mod values;
mod word;

// Reads the first `bits` bits of the message and lays the value's bytes in `value`.
pub fn cad_read(profile: &[u8], message: &[u8], bits: usize, value: &mut [u8]) -> u32
    ensures { (result ≡ cad_read_of profile.now message.now bits value.old)
        × (value.new ≡ cad_read_area profile.now message.now bits value.old) }
{
    match read_into(profile, message, bits, value) {
        Ok(()) => 0,
        Err(stop) => stop.number as u32,
    }
}

// The same; with a 4 also where the element that did not fit begins, and which one it is.
pub fn cad_read_at(
    profile: &[u8],
    message: &[u8],
    bits: usize,
    value: &mut [u8],
    position: &mut u32,
    element: &mut u32,
) -> u32
    ensures { (result ≡ cad_read_of profile.now message.now bits value.old)
        × ((value.new ≡ cad_read_area profile.now message.now bits value.old)
        × ((position.new ≡ cad_read_position profile.now message.now bits value.old position.old)
        × (element.new ≡ cad_read_element profile.now message.now bits value.old element.old))) }
{
    match read_into(profile, message, bits, value) {
        Ok(()) => 0,
        Err(stop) => {
            if stop.number == 4 {
                *position = stop.at as u32;
                *element = stop.element as u32;
                return 4;
            }
            stop.number as u32
        }
    }
}

// Ok: the value's bytes are laid.
fn read_into(profile: &[u8], message: &[u8], bits: usize, value: &mut [u8]) -> Result<(), Stop>
    ensures { (stop_of result ≡ cad_read_stop profile.now message.now bits value.old)
        × (value.new ≡ cad_read_area profile.now message.now bits value.old) }
{
    if read_quickly(profile, message, bits, value) {
        return Ok(());
    }
    if let Some(stop) = refused_quickly(profile, message, bits) {
        return Err(stop);
    }
    read_slowly(profile, message, bits, value)
}

// What a message is refused with, by the walk that keeps no value. None: that is for the long way to say.
fn refused_quickly(profile: &[u8], message: &[u8], bits: usize) -> Option<Stop>
    ensures { IfSome result (λ stop. Refused profile.now message.now bits stop) }
{
    if !profiles::passes(profile) {
        return None;
    }
    reading::read_type(profiles::air_from(profile), message, bits).err()
}

// What can be laid as it is read. False: nothing has changed, and `reading` has to say what is refused, if anything.
fn read_quickly(profile: &[u8], message: &[u8], bits: usize, value: &mut [u8]) -> bool
    ensures { (result ≡ false → value.new ≡ value.old)
        × (result ≡ true → (no_stop ≡ cad_read_stop profile.now message.now bits value.old)
        × (value.new ≡ cad_read_area profile.now message.now bits value.old)) }
{
    let room = value.len();
    if room < values::BYTES {
        return false;
    }
    if profiles::passes(profile) {
        let mut area = [0u8; values::BYTES];
        if lay::lay(profile, message, bits, &mut area) {
            values::put_area(value, &area);
            return true;
        }
    }
    false
}

// Every message and every refusal.
fn read_slowly(profile: &[u8], message: &[u8], bits: usize, value: &mut [u8]) -> Result<(), Stop>
    ensures { (stop_of result ≡ cad_read_stop profile.now message.now bits value.old)
        × (value.new ≡ cad_read_area profile.now message.now bits value.old) }
{
    // whether it keeps the rules is for `read` to say, which answers 1 too
    if !profiles::is_profile(profile) {
        return Err(codec::refuse(1));
    }
    let read = reading::read(profiles::profile_from(profile), message, bits)?;
    if value.len() < values::BYTES {
        return Err(codec::refuse(14));
    }
    values::put_value(value, read);
    Ok(())
}

// Writes the message of the value's bytes from the first byte of `message` on, and its length into `bits`.
pub fn cad_write(profile: &[u8], value: &[u8], message: &mut [u8], bits: &mut usize) -> u32
    ensures { (result ≡ cad_write_of profile.now value.now message.old)
        × ((message.new ≡ cad_write_area profile.now value.now message.old)
        × (bits.new ≡ cad_write_bits profile.now value.now message.old bits.old)) }
{
    let drawn = write_drawn(profile, value, message);
    if drawn > 0 {
        *bits = drawn;
        return 0;
    }
    write_slowly(profile, value, message, bits)
}

// Every value and every refusal.
fn write_slowly(profile: &[u8], value: &[u8], message: &mut [u8], bits: &mut usize) -> u32
    ensures { (result ≡ cad_write_of profile.now value.now message.old)
        × ((message.new ≡ cad_write_area profile.now value.now message.old)
        × (bits.new ≡ cad_write_bits profile.now value.now message.old bits.old)) }
{
    if !profiles::passes(profile) {
        return 1;
    }
    if !values::is_value(value) {
        return 22;
    }
    match writing::write(
        profiles::profile_from(profile),
        values::value_from(value),
        message,
    ) {
        Ok(length) => {
            *bits = length;
            0
        }
        Err(stop) => stop.number as u32,
    }
}

// Draws the value's message and lets it out where it is read back as just this value, has zeros in its spare bits, and finds room: its
// length, or 0 where all stays. (0 and no Option: `Drawn` of specs/ is of the length, and says what 0 leaves.)
fn write_drawn(profile: &[u8], value: &[u8], message: &mut [u8]) -> usize
    ensures { Drawn profile.now value.now message.old message.new result }
{
    let mut drawn = [0u8; draw::BYTES];
    let n = draw::draw(profile, value, &mut drawn);
    if !reads_back(profile, value, &drawn, n) {
        return 0;
    }
    if !bytes::spare_zero(&drawn, n) {
        return 0;
    }
    if message.len() < (n + 7) / 8 {
        return 0;
    }
    bytes::copy_bytes(message, &drawn, (n + 7) / 8);
    n
}

fn reads_back(profile: &[u8], value: &[u8], message: &[u8], bits: usize) -> bool
    ensures { result ≡ true → ReadsBack profile.now value.now message.now bits }
{
    let mut area = [0u8; values::BYTES];
    if read_into(profile, message, bits, &mut area).is_err() {
        return false;
    }
    bytes::same_bytes(value, &area)
}
