ghost use Rattle.std.specs.Prelude.{◌==◌};
ghost use Rattle.std.proofs.Common.{rules};

use crate::{Key, Register};
use std::test::Fail;

/// A kind of key with nothing but a number.
#[derive(Clone, Copy)]
struct Digit(u8);

impl Key for Digit {
    ghost same = { λ x y. (x.0 == y.0) };

    ghost reflexive = { Prim.search rules };

    ghost symmetric = { Prim.search rules };

    ghost transitive = { Prim.search rules };

    fn same_as(&self, other: &Digit) -> bool {
        self.0 == other.0
    }
}

/// Enters the first `keys` numbers as keys, and gives the place that was refused.
fn refused(register: &mut Register<Digit>, keys: u8) -> Option<usize> {
    (0..keys)
        .find_map(|i| register.enter(Digit(i), i as usize).err())
        .map(|fault| fault.place)
}

#[test]
fn numbers_at_first_appearance(rt: HostRuntime) -> Result<(), Fail> {
    let mut slots = [Digit(0); 3];
    let mut register = Register::new(&mut slots);
    assert_eq!(rt; register.enter(Digit(7), 0)?.index, 0);
    assert_eq!(rt; register.enter(Digit(5), 1)?.index, 1);
    assert_eq!(rt; register.enter(Digit(7), 2)?.index, 0);
    assert_eq!(rt; register.used(), 2);
    assert!(rt; register.lookup(&Digit(0)).is_none());
    register.truncate(1);
    assert_eq!(rt; register.enter(Digit(3), 3)?.index, 1);
    Ok(())
}

#[test]
fn has_as_many_numbers_as_slots_but_64(rt: HostRuntime) {
    assert_eq!(rt; refused(&mut Register::new(&mut []), 1), Some(0));
    assert_eq!(rt; refused(&mut Register::new(&mut [Digit(9); 2]), 9), Some(2));
    assert_eq!(rt; refused(&mut Register::new(&mut [Digit(9); 64]), 64), None);
    assert_eq!(rt;
        refused(&mut Register::new(&mut [Digit(9); 80]), 65),
        Some(64)
    );
}
