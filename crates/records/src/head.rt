// What stands in a record before its number (head_of of specs/RecordTexts.antt): its word and its indices.
ghost use Rattle.std.specs.Prelude.{List, [], ◌∷◌, ◌++◌, ◌≡◌, ℕ, length, take};
ghost use Rattle.records.specs.FewIndices.{FewNumbers, in_three};
ghost use Rattle.records.specs.RecordTexts.{head_of};
ghost use Rattle.script.specs.LineForms.{tab};

use crate::place::Place;
use std::marker::Model;

// The third index of `crm`: for CR0 and for CR4.
const OF_CR0: u64 = 0;

const OF_CR4: u64 = 4;

// At most three indices: the first `count` numbers. Behind them stand zeros, so that the list gives the fields back, as `Copy` asks.
#[derive(Clone, Copy)]
pub struct Indices {
    numbers: [u64; 3],
    count: usize,
}

impl Model for Indices {
    ghost Value = { List ℕ };

    ghost view = { λ i. take i.count i.numbers };

    ghost invariant = { λ i. FewNumbers i.numbers i.count };

    ghost inverse = { λ indices. record { numbers = in_three indices; count = length indices } };

    ghost inverse_ok = { λ i few at. record { numbers = few.zeros at; count = few.counted at } };
}

impl Indices {
    // The indices, one behind the other.
    pub fn as_slice(&self) -> &[u64]
        ensures { result.now ≡ self.now }
    {
        &self.numbers[..self.count]
    }
}

// The word of a place's record, with its tab.
#[tactic(auto, unfolding(crate::specs::RecordTexts::head_of))]
pub fn word_of(place: Place) -> &'static [u8]
    ensures { result.now ≡ (head_of place).word ++ tab ∷ [] }
{
    match place {
        Place::PartitionEnabled(_) => b"enabled\t",
        Place::Mbec(_) => b"mbec\t",
        Place::Config(_) => b"config\t",
        Place::Active(_) => b"active\t",
        Place::Shared(_, _) => b"shared\t",
        Place::Register(_, _, _) => b"reg\t",
        Place::Tpr(_, _) => b"tpr\t",
        Place::Pending(_, _, _) => b"pend\t",
        Place::Enabled(_, _) => b"enabled\t",
        Place::Secure(_, _, _) => b"secure\t",
        Place::Reason(_, _) => b"reason\t",
        Place::From(_, _) => b"from\t",
        Place::Rax(_, _) => b"rax\t",
        Place::Rcx(_, _) => b"rcx\t",
        Place::Word(_) => b"word\t",
        Place::Mask(_, _) => b"mask\t",
        Place::Intercepts(_, _) => b"cri\t",
        Place::Cr0Mask(_, _) => b"crm\t",
        Place::Cr4Mask(_, _) => b"crm\t",
    }
}

// One index, two and three.
fn one(a: u64) -> Indices
    ensures { result ≡ a ∷ [] }
{
    Indices {
        numbers: [a, 0, 0],
        count: 1,
    }
}

fn two(a: u64, b: u64) -> Indices
    ensures { result ≡ a ∷ b ∷ [] }
{
    Indices {
        numbers: [a, b, 0],
        count: 2,
    }
}

fn three(a: u64, b: u64, c: u64) -> Indices
    ensures { result ≡ a ∷ b ∷ c ∷ [] }
{
    Indices {
        numbers: [a, b, c],
        count: 3,
    }
}

// The indices of a place's record.
#[tactic(auto, unfolding(crate::specs::RecordTexts::head_of))]
pub fn indices_of(place: Place) -> Indices
    ensures { result ≡ (head_of place).indices }
{
    match place {
        Place::PartitionEnabled(t) => one(t.0),
        Place::Mbec(t) => one(t.0),
        Place::Config(t) => one(t.0),
        Place::Active(v) => one(v.0),
        Place::Shared(v, r) => two(v.0, r),
        Place::Register(v, l, r) => three(v.0, l.0, r),
        Place::Tpr(v, l) => two(v.0, l.0),
        Place::Pending(v, l, i) => three(v.0, l.0, i),
        Place::Enabled(v, l) => two(v.0, l.0),
        Place::Secure(v, l, k) => three(v.0, l.0, k.0),
        Place::Reason(v, l) => two(v.0, l.0),
        Place::From(v, l) => two(v.0, l.0),
        Place::Rax(v, l) => two(v.0, l.0),
        Place::Rcx(v, l) => two(v.0, l.0),
        Place::Word(p) => one(p.0),
        Place::Mask(p, t) => two(p.0, t.0),
        Place::Intercepts(v, l) => two(v.0, l.0),
        Place::Cr0Mask(v, l) => three(v.0, l.0, OF_CR0),
        Place::Cr4Mask(v, l) => three(v.0, l.0, OF_CR4),
    }
}
