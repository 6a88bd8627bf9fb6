// The fields of an accepted ward, over its numbers in file order. Nurses and days count from 0.
#![tactic(auto)]

pub mod day;
pub mod nurse;
pub mod rules;
pub mod sizes;

ghost use Rattle.std.specs.Prelude.{◌≡◌, ◌<◌, ◌≤◌, ◌*◌, ◌+◌, ◌∷◌, [], length};
ghost use Rattle.fields.specs.Sizes.{nurse_places, day_places, tabu_most, pair_most};
ghost use Rattle.fields.specs.Shifts.{place};
ghost use Rattle.fields.specs.Rules as rules_in;
ghost use Rattle.fields.specs.Fields as of;
ghost use Rattle.fields.specs.Fields.{Accepted};

use day::Shift;
use nurse::Nurse;
use rules::Rules;

// The body of an accepted ward: its numbers, from edition two on without the 0 and the edition that they begin with.
#[derive(Clone, Copy)]
pub struct Body<'a> {
    pub numbers: &'a [u64],
    pub ghost accepted: { Accepted numbers.now },
}

// A nurse of the ward, by her index, from 0.
#[derive(Clone, Copy)]
pub struct WardNurse<'a> {
    pub ward: Body<'a>,
    pub index: usize,
    pub ghost in_ward: { index < of.nurses ward.numbers.now },
}

// From edition two on the numbers begin with 0 and the edition.
#[tactic(auto, unfolding(crate::specs::Fields::body_of))]
pub fn without_edition(ws: &[u64]) -> &[u64]
    requires { 2 ≤ length ws.now }
    ensures { result.now ≡ of.body_of ws.now }
{
    if ws[0] == 0 {
        return &ws[2..];
    }
    ws
}

// What is cut out of a body lives as long as its numbers, not only as long as the body is borrowed.
impl<'a> Body<'a> {
    pub fn of(ws: &'a [u64]) -> Body<'a>
        requires { (2 ≤ length ws.now) × Accepted (of.body_of ws.now) }
        ensures { result.numbers.now ≡ of.body_of ws.now }
    {
        let numbers = without_edition(ws);
        Body { numbers }
    }

    // m
    pub fn nurses(&self) -> usize
        ensures { (result ≡ of.nurses self.now.numbers.now) × (result ≤ nurse_places) }
    {
        self.numbers[0] as usize
    }

    // n
    pub fn days(&self) -> usize
        ensures { (result ≡ of.days self.now.numbers.now) × (result ≤ day_places) }
    {
        self.numbers[1] as usize
    }

    // r
    pub fn groups(&self) -> usize
        ensures { (result ≡ of.groups self.now.numbers.now) × (result ≤ 16) }
    {
        self.numbers[2] as usize
    }

    // V, L and the gaps.
    pub fn rules(&self) -> Rules
        ensures { result ≡ rules_in.rules_of self.now.numbers.now }
    {
        Rules {
            most: self.numbers[3],
            longest: self.numbers[4],
            g1: self.numbers[5],
            g2: self.numbers[6],
            g3: self.numbers[7],
        }
    }

    // TL
    pub fn tabu(&self) -> usize
        ensures { (result ≡ of.tabu self.now.numbers.now) × (result ≤ tabu_most) }
    {
        self.numbers[8] as usize
    }

    // D
    pub fn longest_days(&self) -> usize
        ensures { (result ≡ of.longest_days self.now.numbers.now) × (result ≤ 6) }
    {
        self.numbers[9] as usize
    }

    // A shift's weights: w, u, v.
    pub fn weights(&self, shift: Shift) -> [u64; 3]
        ensures { result ≡ of.weight self.now.numbers.now (3 * place shift) ∷ of.weight self.now.numbers.now (3 * place shift + 1) ∷ of.weight self.now.numbers.now (3 * place shift + 2) ∷ [] }
    {
        let at = 10 + 3 * shift as usize;
        [self.numbers[at], self.numbers[at + 1], self.numbers[at + 2]]
    }

    // The nurse of index i.
    pub fn nurse_at(&self, i: usize) -> WardNurse<'a>
        requires { i < of.nurses self.now.numbers.now }
        ensures { (result.ward ≡ self.now) × (result.index ≡ i) }
    {
        WardNurse {
            ward: *self,
            index: i,
        }
    }

    // Where nurse i's numbers begin, or with no nurse left what follows them.
    #[tactic(auto, unfolding(crate::specs::Fields::block_at))]
    fn block_at(&self, i: usize) -> usize
        requires { i ≤ of.nurses self.now.numbers.now }
        ensures { result ≡ of.block_at self.now.numbers.now i }
    {
        16 + i * (11 + self.days())
    }

    // Nurse i's numbers.
    #[tactic(auto, unfolding(crate::specs::Fields::block))]
    pub fn nurse(&self, i: usize) -> Nurse<'a>
        requires { i < of.nurses self.now.numbers.now }
        ensures { (result.numbers.now ≡ of.block self.now.numbers.now i) × (result.days ≡ of.days self.now.numbers.now) }
    {
        let days = self.days();
        let a = self.block_at(i);
        let e = a + 11 + days;
        let numbers = &self.numbers[a..e];
        Nurse { numbers, days }
    }

    // Where the groups begin.
    #[tactic(auto, unfolding(crate::specs::Fields::groups_at, crate::specs::Fields::block_at))]
    fn groups_at(&self) -> usize
        ensures { result ≡ of.groups_at self.now.numbers.now }
    {
        self.block_at(self.nurses())
    }

    // The groups' members, each a set.
    #[tactic(auto, unfolding(crate::specs::Fields::member_sets, crate::specs::Fields::groups_at))]
    pub fn member_sets(&self) -> &'a [u64]
        ensures { result.now ≡ of.member_sets self.now.numbers.now }
    {
        let a = self.groups_at();
        let e = a + self.groups();
        &self.numbers[a..e]
    }

    // Where the numbers of the day of index d begin, or with no day left what follows them.
    #[tactic(auto, unfolding(crate::specs::Fields::needs_at))]
    fn needs_at(&self, d: usize) -> usize
        requires { d ≤ of.days self.now.numbers.now }
        ensures { result ≡ of.needs_at self.now.numbers.now d }
    {
        let r = self.groups();
        self.groups_at() + r + d * (4 * r + 2)
    }

    // A day's numbers, which `day` reads.
    #[tactic(auto, unfolding(crate::specs::Fields::needs))]
    pub fn needs(&self, d: usize) -> &'a [u64]
        requires { d < of.days self.now.numbers.now }
        ensures { result.now ≡ of.needs self.now.numbers.now d }
    {
        let a = self.needs_at(d);
        let e = a + 4 * self.groups() + 2;
        &self.numbers[a..e]
    }

    // Where the days end.
    #[tactic(auto, unfolding(crate::specs::Fields::tail_at))]
    fn tail_at(&self) -> usize
        ensures { (result ≡ of.tail_at self.now.numbers.now) × (result ≤ length self.now.numbers.now) }
    {
        self.needs_at(self.days())
    }

    // How many pairs of days off there are.
    pub fn pair_count(&self) -> usize
        ensures { (result ≡ of.pair_count self.now.numbers.now) × (result ≤ pair_most) }
    {
        self.numbers
            .get(self.tail_at())
            .map_or(0, |count| *count as usize)
    }

    // The first day of pair k, from 1.
    pub fn pair_day(&self, k: usize) -> u64
        requires { (1 ≤ k) × (k ≤ of.pair_count self.now.numbers.now) }
        ensures { (result ≡ of.pair_day self.now.numbers.now k) × (1 ≤ result) × (result < of.days self.now.numbers.now) }
    {
        self.numbers[self.tail_at() + k]
    }
}

impl<'a> WardNurse<'a> {
    // Her numbers.
    pub fn numbers(&self) -> Nurse<'a>
        ensures { (result.numbers.now ≡ of.block self.now.ward.numbers.now self.now.index) × (result.days ≡ of.days self.now.ward.numbers.now) }
    {
        self.ward.nurse(self.index)
    }
}
