//! The first step of entering a rule: its keys get their numbers.
ghost use Rattle.std.specs.Prelude.{◌≡◌, ℕ, ◌+◌, ◌<◌, ◌≤◌, List, [], ◌∷◌, ◌++◌, length, IfOk};
ghost use Rattle.keys.specs.Kept.{Front};
ghost use Rattle.keys.specs.Limits.{most_names};
ghost use Rattle.keys.specs.Registers.{keys_in, slots_of, room};
ghost use Rattle.reader.specs.Limits.{most_heads};
ghost use Rattle.reader.specs.Written.{WrittenRule, reads, IsOutline};
ghost use Rattle.book.specs.KeyLists.{numbers_in, Numbers, KeysHeld, NumberedLaidOut};

use crate::key_numbers::KeyNumbers;
use keys::{KeyNumber, Register, RegisterFault};
use reader::limits::HEADS;
use reader::{Outline, Written};

impl KeyNumbers {
    /// No numbers, where so many names are in use.
    fn none(names: usize) -> KeyNumbers
        requires { names ≤ most_names }
        ensures numbers { numbers_in result ≡ [] }
        ensures count { result.count ≡ 0 }
        ensures names { result.names ≡ names }
    {
        KeyNumbers {
            at: [KeyNumber::default(); HEADS],
            count: 0,
            names,
        }
    }

    /// Puts the number of the next key behind the others, where so many names are then in use.
    fn push(&mut self, number: KeyNumber, names: usize)
        requires room { self.old.count < most_heads }
        requires named { number.index < names }
        requires grown { self.old.names ≤ names }
        requires few_names { names ≤ most_names }
        ensures numbers { numbers_in self.new ≡ numbers_in self.old ++ number.index ∷ [] }
        ensures count { self.new.count ≡ self.old.count + 1 }
        ensures names { self.new.names ≡ names }
    {
        self.at[self.count] = number;
        self.count += 1;
        self.names = names;
    }
}

/// The numbers of the keys of the rule that the bytes are read as, in the order of the text: a key keeps its number, and a
/// new one gets the next. A refusal leaves the keys as they were.
pub fn number_keys<K: Written + Copy>(
    register: &mut Register<'_, K>,
    bytes: &[u8],
    outline: &Outline,
) -> Result<KeyNumbers, RegisterFault>
    ensures numbers { (w : WrittenRule K) → K.reading bytes.now ≡ reads w → IsOutline w outline.now → Numbers K.same (room (slots_of register.old)) (keys_in register.old) w (keys_in register.new) result }
    ensures keys { KeysHeld (keys_in register.old) (keys_in register.new) result }
    ensures slots { slots_of register.new ≡ slots_of register.old }
{
    let before = register.used();
    let numbers = enter_keys(register, bytes, outline);
    // No closure: one that cuts back would keep to itself what it changes.
    if numbers.is_err() {
        register.truncate(before);
    }
    numbers
}

/// Enters the keys of the rule that the bytes are read as, in the order of the text, up to the first for which there is no
/// room, and gives their numbers.
fn enter_keys<K: Written + Copy>(
    register: &mut Register<'_, K>,
    bytes: &[u8],
    outline: &Outline,
) -> Result<KeyNumbers, RegisterFault>
    ensures numbers { (w : WrittenRule K) → K.reading bytes.now ≡ reads w → IsOutline w outline.now → Numbers K.same (room (slots_of register.old)) (keys_in register.old) w (keys_in register.new) result }
    ensures kept { Front (keys_in register.old) (keys_in register.new) }
    ensures names { IfOk result (λ ns. ns.names ≡ length (keys_in register.new)) }
    ensures slots { slots_of register.new ≡ slots_of register.old }
{
    let mut numbers = KeyNumbers::none(register.used());
    for place in outline.places() {
        let place = *place as usize;
        let number = register.enter(K::key_at(bytes, place), place)?;
        numbers.push(number, register.used());
    }
    Ok(numbers)
}

/// A rule as written, with the numbers of its keys, is the one that its outline and these numbers lay out.
pub fn numbers_lay_out<K>()
    ensures { NumberedLaidOut K }
{}
