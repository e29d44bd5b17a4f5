ghost use Rattle.std.specs.Prelude.{◌≡◌, ℕ, ◌*◌, ◌<◌, ◌↔◌, IsTrue, ◌^◌, slice_index, ◌≤◌, false};
ghost use Rattle.grd_base.specs.Sets.{Set, nothing, with_number, without_number, union, minus, IsSubset};
ghost use Rattle.grd_base.specs.Bits.{members, bits_of, IsWhole};
ghost use Rattle.grd_base.specs.declared.bits.Bits.{Bits};

use std::cmp::Ordering;

/// A set of numbers below `64 * W`, in `W` words of 64 bits. A task's states take `W` from 1 to 64.
#[derive(Clone, Copy, Debug, PartialEq, Eq, PartialOrd, Ord, Hash)]
pub struct Bits<const W: usize> {
    words: [u64; W],
}

impl<const W: usize> Bits<W> {
    /// The empty set.
    pub fn new() -> Bits<W>
        ensures { members result ≡ nothing }
    {
        Bits { words: [0; W] }
    }

    /// Whether the number is a member.
    pub fn contains(&self, n: u32) -> bool
        requires { n < 64 * W }
        ensures { result ≡ members self.now n }
    {
        let word = self.words[(n / 64) as usize];
        (word >> (n % 64)) & 1 == 1
    }

    /// Puts the number in, where it is not a member already.
    pub fn insert(&mut self, n: u32)
        requires { n < 64 * W }
        ensures { members self.new ≡ with_number (members self.old) n }
    {
        let bit = 1 << (n % 64);
        let word = self.words[(n / 64) as usize];
        self.words[(n / 64) as usize] = word | bit;
    }

    /// Takes the number out, where it is a member.
    pub fn remove(&mut self, n: u32)
        requires { n < 64 * W }
        ensures { members self.new ≡ without_number (members self.old) n }
    {
        let bit: u64 = 1 << (n % 64);
        let word = self.words[(n / 64) as usize];
        self.words[(n / 64) as usize] = word & !bit;
    }

    /// Whether each member is one of the other's.
    pub fn is_subset(&self, other: &Bits<W>) -> bool
        ensures { IsTrue result ↔ IsSubset (members self.now) (members other.now) }
    {
        known_words(&self.words);
        known_words(&other.words);
        for i in 0..W {
            let word = self.words[i];
            let mask = other.words[i];
            if word & !mask != 0 {
                return false;
            }
        }
        true
    }

    /// Puts the other's members in.
    pub fn union_in(&mut self, other: &Bits<W>)
        ensures { members self.new ≡ union (members self.old) (members other.now) }
    {
        for i in 0..W {
            let word = self.words[i];
            let more = other.words[i];
            self.words[i] = word | more;
        }
    }

    /// Takes the other's members out.
    pub fn minus_in(&mut self, other: &Bits<W>)
        ensures { members self.new ≡ minus (members self.old) (members other.now) }
    {
        known_words(&other.words);
        for i in 0..W {
            let word = self.words[i];
            let less = other.words[i];
            self.words[i] = word & !less;
        }
    }

    /// Whether there is no member.
    pub fn is_empty(&self) -> bool
        ensures { IsTrue result ↔ (members self.now ≡ nothing) }
    {
        for i in 0..W {
            let word = self.words[i];
            if word != 0 {
                return false;
            }
        }
        true
    }
}

/// Two values with the same members are the same value.
pub fn same_members<const W: usize>(a: &Bits<W>, b: &Bits<W>)
    ensures { members a.now ≡ members b.now → a.now ≡ b.now }
{
    known_words(&a.words);
    known_words(&b.words);
}

/// Every value that a program holds is whole.
pub fn whole<const W: usize>(s: &Bits<W>)
    ensures { IsWhole s.now }
{
    known_words(&s.words);
}

/// Whole values with the same members are the same value.
pub fn same_whole<const W: usize>()
    ensures { (x y : Bits W) → IsWhole x → IsWhole y → members x ≡ members y → x ≡ y }
{}

/// The value that is made of a set is whole and has the set's members, where these are below `64 * W`;
/// made of the members of a whole value it is that value.
pub fn packed<const W: usize>()
    ensures whole { (s : Set) → IsWhole (bits_of {W = W} s) }
    ensures members { (s : Set) → ((n : ℕ) → 64 * W ≤ n → s n ≡ false) → members (bits_of {W = W} s) ≡ s }
    ensures again { (x : Bits W) → IsWhole x → bits_of (members x) ≡ x }
{}

/// No number from `64 * W` on is a member.
pub fn members_below<const W: usize>(s: &Bits<W>)
    ensures { (n : ℕ) → 64 * W ≤ n → members s.now n ≡ false }
{
    let _words = &s.words;
}

/// Whether the two have the same members.
pub fn is_same<const W: usize>(a: &Bits<W>, b: &Bits<W>) -> bool
    ensures { IsTrue result ↔ (members a.now ≡ members b.now) }
{
    same_members(a, b);
    a == b
}

/// Values that compare equal are the same value.
pub fn same_order<const W: usize>()
    ensures { (x y : Bits W) → ⟦<Bits<W> as Ord>⟧.cmp x y ≡ Ordering.Equal → x ≡ y }
{}

// Each word is below 2 ^ 64.
fn known_words(words: &[u64])
    ensures { (k : ℕ) → slice_index words.now k < 2 ^ 64 }
{}
