// MIDI out: from the keys that sound to those of the next chord, in messages.
#![tactic(auto)]

ghost use Rattle.std.specs.Prelude.{◌≡◌, OnErr};
ghost use Rattle.midi.specs.Midi.{number};
ghost use Rattle.midi.specs.State.{Next};

use chord::Chord;
use keys::Keys;
use keys::wanted::keys_of;
use messages::{length_between, put_between};
use writer::buffer::Buffer;
use writer::has_text;

pub mod messages;

// Why a chord is refused.
#[derive(Clone, Copy, PartialEq, Eq)]
pub enum Refusal {
    NoText,
    OutsideKeys,
    ShortOutput,
}

// The paper's number.
impl From<Refusal> for u8 {
    ghost from_gives = { λ e n. n ≡ number e };

    fn from(refusal: Refusal) -> u8 {
        match refusal {
            Refusal::NoText => 7,
            Refusal::OutsideKeys => 10,
            Refusal::ShortOutput => 11,
        }
    }
}

// Goes from any keys that sound to any chord, over any base key. The messages fill their own bytes of any lent output, from the first on,
// and their length is returned; all else in the output is untouched. A chord that is refused leaves the keys that sound and the whole
// output as they were.
pub fn next(sounding: &mut Keys, base: u8, chord: Chord, out: &mut [u8]) -> Result<usize, Refusal>
    ensures next { Next sounding.old base chord out.old out.new (record { answer = result; keys = sounding.new }) }
    ensures refused { OnErr result (sounding.new ≡ sounding.old) }
{
    if !has_text(chord) {
        return Err(Refusal::NoText);
    }
    let wanted = keys_of(base, chord);
    if wanted.outside {
        return Err(Refusal::OutsideKeys);
    }
    let keys = wanted.keys;
    if out.len() < length_between(*sounding, keys) {
        return Err(Refusal::ShortOutput);
    }
    let mut written = Buffer::new(out);
    put_between(&mut written, *sounding, keys);
    *sounding = keys;
    Ok(written.len)
}
