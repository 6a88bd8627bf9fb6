// What a search offers: everyone's lists, and each nurse's own of them.
ghost use Rattle.std.specs.Prelude.{◌≡◌, ◌<◌, get_or};
ghost use Rattle.fields.specs.Sizes.{nurse_places};
ghost use Rattle.fields.specs.Fields.{nurses};
ghost use Rattle.ownlists.specs.CodeOwn.{no_list};
ghost use Rattle.search.specs.CodePlan.{Tries, tries_prop, IsOffered, HasStretch, DayPlan};

use fields::Body;
use fields::sizes::{ENDS, NURSES};
use history::Search;
use ownlists::{OwnList, Source};
use std::array;
use tries::lists::Offered;

// What a search offers: the lists of a ward, and by a plan everyone's own of them. Whoever has it may try each of them.
#[derive(Clone, Copy)]
pub(crate) struct Offers<'a> {
    pub(crate) ward: &'a Body<'a>,
    pub(crate) search: Search,
    pub(crate) lists: &'a [u32],
    pub(crate) plan: &'a [OwnList<'a>; NURSES],
    ghost tries: { Tries search ward.now.numbers.now lists.now plan.now } by { tries_prop search ward.now.numbers.now lists.now plan.now },
}

// By day nurse i's stretch of the lists, by where they end: none past the last nurse, and no more than there is. `workable` and `before` are 0: by day
// nothing reads them.
fn day_list<'a>(lists: &'a [u32], ends: &[usize; ENDS], i: usize) -> OwnList<'a>
    requires { i < nurse_places }
    ensures { HasStretch lists.now ends.now i result }
{
    let stretch = lists.get(ends[i]..ends[i + 1].min(lists.len()));
    OwnList {
        source: Source::Kept(stretch.unwrap_or_default()),
        workable: 0,
        before: 0,
    }
}

// That of each place.
pub(crate) fn day_plan(lists: &[u32], ends: [usize; ENDS]) -> [OwnList<'_>; NURSES]
    ensures { DayPlan lists.now ends result }
{
    array::from_fn(|i| day_list(lists, &ends, i))
}

impl Offers<'_> {
    // Nurse i's list: her own stretch where it is kept, else the lists, which are hers or have hers among them.
    pub(crate) fn list(&self, i: usize) -> Offered<'_>
        requires { i < nurses self.now.ward.now.numbers.now }
        ensures { IsOffered self.now.lists.now (get_or self.now.plan.now i no_list).source result }
    {
        match self.plan[i].source {
            Source::Kept(own) => Offered::Own(own),
            Source::Whole => Offered::Own(self.lists),
            Source::Among => Offered::Common(self.lists),
        }
    }
}
