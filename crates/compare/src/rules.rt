//! Rules as trees.
use std::fmt;

/// A rule or a body of one: the number of its record, the number of its head, and its bodies.
#[derive(Drop)]
pub struct Rule {
    pub number: u8,
    pub head: u8,
    pub bodies: Vec<Rule>,
}

/// The rule of a record, however deep it lies.
// A loop, tried as `find_map`: its closure is not shown callable where the recursion runs through it.
pub fn find(rules: &[Rule], wanted: u8) -> Option<&Rule> {
    for rule in rules {
        if rule.number == wanted {
            return Some(rule);
        }
        let found = find(&rule.bodies, wanted);
        if found.is_some() {
            return found;
        }
    }
    None
}

/// The letter of a head.
fn letter(head: u8) -> char {
    char::from(b'a' + head % 26)
}

/// In text, with commas between the bodies, and brackets round those that have bodies of their own.
impl fmt::Display for Rule {
    fn fmt<W: fmt::Write>(&self, f: &mut fmt::Formatter<W>) -> fmt::Result {
        write!(f, "{}", letter(self.head))?;
        let mut between = " if ";
        for body in &self.bodies {
            if body.bodies.is_empty() {
                write!(f, "{between}{body}")?;
            } else {
                write!(f, "{between}({body})")?;
            }
            between = ", ";
        }
        Ok(())
    }
}
