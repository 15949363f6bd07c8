use turn_book::Machine;

/// One entry of a machine that publishes.
#[derive(Clone, Copy)]
pub enum Post {
    /// A caller posts a number: a publication.
    Set(u32, u64),
    /// A caller makes an entry that changes nothing.
    Pass(u32),
}

/// The number that is posted, how many entries were made, and how many posts. No value of it is made.
pub struct Posts {
    pub posted: u64,
    pub changes: u64,
    pub posts: u64,
}

/// The machine of one number, the registry, which is published with the number after it.
pub struct Posting;

impl Machine for Posting {
    type Part = u64;

    type Entry = Post;

    type State = Posts;

    ghost use Rattle.book_rows.specs.Posting.{IsNew, Posted, posts_with, numbers_of, words_of, poster_of, is_post, post_reach, has_post_room, one_post, one_number, two_words, unposted_stays, posts_depend, unposted_words, posts_bounded};

    ghost opens = { IsNew };

    ghost opening = { posts_with };

    ghost steps = { Posted };

    ghost parts = { numbers_of };

    ghost published = { words_of };

    ghost caller = { poster_of };

    ghost is_publication = { is_post };

    ghost reach = { λ s e. post_reach e };

    ghost has_room = { has_post_room };

    ghost one_step = { one_post };

    ghost count_stays = { one_number };

    ghost unreached_stays = { unposted_stays };

    ghost depends_on_reach = { posts_depend };

    ghost words_stay = { unposted_words };

    ghost width_stays = { two_words };

    ghost bounded = { posts_bounded };
}
