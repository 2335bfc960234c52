//! The laws. Each is the contract of a function that does nothing.
ghost use Rattle.transfer.specs.Laws.{DoesStartStand, IsStartExact, DoPostsStand, DoPostsHave, AreKindsSame, IsUnsplitPost};
ghost use Rattle.transfer.specs.Machine.{ArePostsSound};

/// Where the graph before stands for what is seen of a state of a run, the graphs of a post stand for what is seen of each state to which the flow machine
/// goes along the edge, but for an access through any word; and each fault that it meets there is listed.
#[tactic(auto, using(crate::proofs::Sound::posts_sound))]
pub fn posts_are_of_the_flow_machine()
    ensures { ArePostsSound }
{}

/// The start graph stands for each state in which a run begins.
pub fn starts_are_stood_for()
    ensures { DoesStartStand }
{}

/// It stands for no other states, up to alike ones.
pub fn the_start_is_exact()
    ensures { IsStartExact }
{}

/// Where a post does not name loss 4 beside a kind its graphs stand for each state that follows.
pub fn what_follows_is_stood_for()
    ensures { DoPostsStand }
{}

/// A post has each kind that is met.
pub fn each_kind_is_listed()
    ensures { DoPostsHave }
{}

/// Two posts of one graph along one edge have the same kinds.
pub fn kinds_are_those_of_the_edge()
    ensures { AreKindsSame }
{}

/// Where no register through which an instruction goes names a segment, as in each graph of regions, the post is that of the table.
pub fn what_is_not_split_has_the_post_of_the_table()
    ensures { IsUnsplitPost }
{}
