// What a call is lent beside (H, c): slices whose lengths may be any, and the blocks once 31 is judged of them.
ghost use Rattle.std.specs.Prelude.{◌≡◌, ◌<◌, ◌≤◌, length};
ghost use Rattle.laws.specs.Sum.{total};
ghost use Rattle.laws.specs.Lists.{elem};
ghost use Rattle.block_search.specs.Blocks.{block_of};

// The pinned wagons, and a store for each.
#[derive(Clone, Copy)]
pub struct Pins<'a> {
    pub wagons: &'a [u16],
    pub stores: &'a [u8],
}

// Blocks of wagons: a size for each, and the wagons of one after those of the other.
#[derive(Clone, Copy)]
pub struct Blocks<'a> {
    pub sizes: &'a [u16],
    pub wagons: &'a [u16],
}

// Blocks that name no more wagons than are lent.
#[derive(Clone, Copy)]
pub(crate) struct WholeBlocks<'a> {
    pub(crate) lent: Blocks<'a>,
    ghost wagons_there: { total (length lent.sizes.now) (elem lent.sizes.now) ≤ length lent.wagons.now },
}

impl<'a> WholeBlocks<'a> {
    // The wagons of block k, the first of which stands at `at`.
    pub(crate) fn block(self, k: usize, at: usize) -> &'a [u16]
        requires { (k < length self.lent.sizes.now) × (at ≡ total k (elem self.lent.sizes.now)) }
        ensures wagons { result.now ≡ block_of self.entry.lent.sizes.now self.entry.lent.wagons.now k }
        ensures many { length result.now ≡ elem self.entry.lent.sizes.now k }
    {
        let end = at + usize::from(self.lent.sizes[k]);
        &self.lent.wagons[at..end]
    }
}

// What is searched and from where: the pins, the present choice, the blocks, and how wide each search is.
#[derive(Clone, Copy)]
pub struct Request<'a> {
    pub pins: Pins<'a>,
    pub present: &'a [u8],
    pub blocks: Blocks<'a>,
    pub width: usize,
}
