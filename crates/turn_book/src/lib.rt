//! A book of turns over any machine: parts behind turns, and the front word of one history that all threads share.
//!
//! A `Machine` names, in contracts alone, its states, its steps, the parts of a state, the caller and the reach of an
//! entry. A `TurnBook` keeps the machine's parts, each behind a turn, and one front word. A `Pen` is a seat at the
//! book: it knows a list of entries, which is a beginning of the one legal history, and it holds parts. A thread takes
//! the turns of the parts that its entry reaches, looks at the front, changes the parts in hand, commits the entry by
//! one exchange of the front, and gives the parts back. Nothing of an entry is stored.
//!
//! Published words are read without a turn. Part 0 is the registry: its holder writes the words of the state to come to
//! the spare one of two banks, and the entry that changes them, a publication, moves the front's generation, whose parity
//! tells the bank in use.
//!
//! # What each call promises
//!
//! - **The book begins with an empty history**, over the parts and the published words of one opening state:
//!   `TurnBook::make`, clauses `pen`, `opening`, `count` and `width`.
//! - **A look shows the history**: after `TurnBook::front` the pen's list is the history (`seen`, `legal`), the answer is
//!   its length and number of publications (`length`, `generation`), it has of the pen's own caller nothing new (`own`),
//!   each part in hand is as the history has it (`holds`), and the front found is the last of the pen's looks (`looks`,
//!   `last_look`). Each note of that generation has the published value (`right`), and with the registry held the pen
//!   knows the generation (`knows`).
//! - **A turn is won or found taken**: `TurnBook::take` answers `Got`, and the pen holds the part as the history has it
//!   (`got`, `held`, `just`, `took`), or `Found`, exactly where the swap found the turn taken, and nothing but the list of turns
//!   found taken changed (`found`, `lost`).
//! - **The part in hand is lent**: `part_of` and `TurnBook::lend` (`value`, `writes_back`), whatever the order in which the
//!   parts were taken; no other part in hand changes (the lemma `slot_lent`).
//! - **The part that goes home is the one that the history has**: `TurnBook::give` (`home`; `view`, `just`, `gone`,
//!   `slots`). With the registry go the drafts and the generation known (`view`).
//! - **Several parts at once**: `TurnBook::take_all` takes each or none (`held`, `same`, `took`, `found`, `until`), and
//!   `TurnBook::give_all` gives each (`view`, `bare`).
//! - **One entry at one exchange**: `TurnBook::commit` asks that `had` is the pen's last look (`last_look`), that the entry
//!   is a step from the history of `had` (`step`), has the pen's caller (`caller`), that its reach is held (`reach`), and
//!   whether it is a publication (`publish`); of one, that the registry is held (`registry`) and that each word that is
//!   published after it was drafted (`drafted`). It answers the place, and the pen's list ends with the entry there (`at`,
//!   `entered`, `follows`, `holds`, `published`); or the front that it found, which differs from `had`, and the pair is one
//!   miss more (`other`, `missed`, `lost`, `words`).
//! - **A word is read, and written, in one step**: `TurnBook::word` notes what it read under the generation of the pen's
//!   last look (`noted`); `TurnBook::spare` drafts what it wrote (`drafted`).
//! - **What was seen goes from pen to pen**: `TurnBook::split` gives a pen that has seen the same (`pen`, `kept`), and after
//!   `TurnBook::join` both lists are beginnings of the pen's list (`seen`, `learnt`), to which the pen's caller added
//!   nothing (`own`).
//! - **A joined caller has just its own entries**: after a `join` of a caller's pen, and after each later `front`, `join` or
//!   `commit`, the kept list has of that caller just the entries of the joined list (`list`, `ended`); the other calls leave
//!   the list and the callers (`list`, `place`, `view`, `kept`).
//! - **Nobody else has entries**: the list of the pen of `make` has none of a caller for whom no pen was split (`made`).
//! - **The book ends as its history leaves it**: `TurnBook::close` (`ends`): the parts that one legal history leaves, its
//!   length and its number of publications; what the pen has seen begins it; each joined caller has in it just its own
//!   entries, and no other caller any.
//! - **Equal generations have equal words**: `generations_have_words`, a law of every machine.
//!
//! # What stands
//!
//! The rule `IsKept` of `specs/Rule.antt`, in seven points, holds between any two steps of any threads. Seven kinds of step
//! keep it: a load of the front, a swap of a turn, a store that gives it back, an exchange of the front by an entry that is
//! no publication, a load of a published word, a store to the spare bank, and an exchange of the front by a publication.
//! So do the table's own moves: the exchange of a slot, the split of a seat and the join of two.
#![tactic(auto)]

mod book;
mod laws;
mod lend;
mod machine;
mod many;
mod moves;
mod pen;
mod plays;
mod slots;
mod unload;
mod view;
mod words;

pub use book::{NoMemory, Took, TurnBook};
pub use laws::generations_have_words;
pub use lend::part_of;
pub use machine::{Entering, Machine};
pub use pen::Pen;
pub use view::Front;
pub use words::SpareBank;
