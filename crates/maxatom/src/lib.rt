#![tactic(auto)]

ghost use Rattle.std.specs.Prelude.{◌≡◌, ◌≤◌};
ghost use Rattle.maxatom.specs.Class.{class_of, class_in_order, number_of_class};

// A max-atom, max(x, y) + k ≥ z over the times of three jobs: a rule of a book.
#[repr(C)]
#[derive(Clone, Copy, PartialEq, Eq)]
pub struct Rule {
    pub x: u16,
    pub y: u16,
    pub z: u16,
    pub k: i32,
}

// An arm of a clause: a job and its offset.
#[derive(Clone, Copy, PartialEq, Eq)]
pub struct Arm {
    pub job: u16,
    pub offset: i32,
}

// What a step takes off: a job, its time before the step and its time after it.
#[repr(C)]
#[derive(Clone, Copy, PartialEq, Eq)]
pub struct Slip {
    pub job: u16,
    pub before: i32,
    pub after: i32,
}

// In the words of the formats: idle, impossible, one-armed, two-armed.
#[derive(Clone, Copy, PartialEq, Eq)]
pub enum Class {
    Tautology,
    Contradiction,
    Difference,
    Disjunctive,
}

// The number of the rule's class, decided in the order of section 3 of the paper: impossible (1), then idle (0), then one-armed (2), whose
// test is by then only that x is y, or that z is x or y; the rest is two-armed (3). The first test asks for the jobs before the offset,
// since few rules name one job alone.
#[tactic(auto, unfolding(crate::specs::Class::contradiction, crate::specs::Class::tautology, crate::specs::Class::class_in_order, crate::specs::Class::number_of_class))]
fn class_number(r: Rule) -> u8
    ensures { result ≡ number_of_class (class_in_order r) }
{
    if r.z == r.x && r.z == r.y && r.k < 0 {
        return 1;
    }
    if r.k >= 0 && (r.z == r.x || r.z == r.y) {
        return 0;
    }
    if r.x == r.y || r.z == r.x || r.z == r.y {
        return 2;
    }
    3
}

// The class with this number; a match reports it, as the project asks. `class_number` decides.
#[tactic(auto, unfolding(crate::specs::Class::number_of_class))]
fn class_at(number: u8) -> Class
    requires { number ≤ 3 }
    ensures { number_of_class result ≡ number }
{
    match number {
        0 => Class::Tautology,
        1 => Class::Contradiction,
        2 => Class::Difference,
        _ => Class::Disjunctive,
    }
}

impl Rule {
    // The class of the rule, whatever its numbers.
    #[tactic(auto, using(crate::proofs::Classes::same_in_order), unfolding(crate::specs::Class::number_of_class))]
    pub fn class(self) -> Class
        ensures { result ≡ class_of self }
    {
        class_at(class_number(self))
    }
}
