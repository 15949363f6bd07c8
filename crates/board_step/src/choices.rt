//! The choices that an entry shows: whom each message reached.
ghost use Rattle.std.specs.Prelude.{◌≡◌, ◌<◌, ◌≤◌, ◌++◌, length};
ghost use Rattle.board_model.specs.Statuses.{sets_of};
ghost use Rattle.board_step.specs.History.{wish_of, wish_shown, wish_replied, wishes_told};

use board_raise::WishList;
use irq_base::{Event, EventList, Reply, Status};
use irq_bits::CpuSet;

// Puts the processors of both sets before the wishes, if there are any.
fn add_sets(wishes: &mut WishList, new: &CpuSet, stood: &CpuSet)
    requires { length wishes.old < 561 }
    ensures { wishes.new ≡ wish_of (record { new = new.now; stood = stood.now }) ++ wishes.old }
{
    let reached = new.join(stood);
    if !reached.is_empty() {
        wishes.put_first(reached);
    }
}

// Puts the processors that a status shows before the wishes.
fn add_status(wishes: &mut WishList, status: &Status)
    requires { length wishes.old < 561 }
    ensures { wishes.new ≡ wish_of (sets_of status.now) ++ wishes.old }
{
    match status {
        Status::Delivered { new, stood, .. } => add_sets(wishes, new, stood),
        Status::Coalesced { stood } => add_sets(wishes, &CpuSet::empty(), stood),
        Status::Ignored(_) | Status::Lowered => add_sets(
            wishes,
            &CpuSet::empty(),
            &CpuSet::empty(),
        ),
    }
}

// Puts the choice that an event shows before the wishes.
fn add_event(wishes: &mut WishList, event: &Event)
    requires { length wishes.old < 561 }
    ensures { wishes.new ≡ wish_shown event.now ++ wishes.old }
{
    match event {
        Event::Injected { status, .. } | Event::Resent { status, .. } | Event::Ipi(status) => {
            add_status(wishes, status)
        }
        _ => {}
    }
}

// Puts the choice that a reply shows before the wishes.
fn add_reply(wishes: &mut WishList, reply: &Reply)
    requires { length wishes.old < 561 }
    ensures { wishes.new ≡ wish_replied reply.now ++ wishes.old }
{
    if let Reply::Signal(status) = reply {
        add_status(wishes, status);
    }
}

// The choices that events show, and then that of the reply.
pub(crate) fn wishes_shown(reply: &Reply, events: &EventList) -> WishList
    requires { length events.now ≤ 560 }
    ensures { result ≡ wishes_told events.now ++ wish_replied reply.now }
{
    let mut wishes = WishList::none();
    add_reply(&mut wishes, reply);
    for k in (0..events.len()).rev() {
        add_event(&mut wishes, events.at(k));
    }
    wishes
}
