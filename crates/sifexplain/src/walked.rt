// The context in which an item stands: what the checker's walk has when it comes there. The verdict does not
// depend on it; it is only told.
use crate::contexts::Here;
use crate::packet::Packet;
use listing::Item;
use listing::limits::STACK;
use rules::Held;

impl<'a> Here<'a> {
    // Item i, where it stands.
    pub fn new(packet: Packet<'a>, i: usize) -> Here<'a> {
        let mut here = Here {
            packet,
            item: packet.item(i),
            held: Held::nothing(),
        };
        for item in packet.items().take(i) {
            here.go_past(item);
        }
        here
    }

    // Takes the context past an item that is not refused. Behind a jmp, a halt and a cjmp it does not matter: only a
    // label can come there. A full stack, to which a push is refused, stays. `checker` has the like for its walk, and
    // this cannot call it: that asks for tables of places and for an item that passes, which nothing here has proved.
    fn go_past(&mut self, item: Item) {
        match item {
            Item::Compute(_, rd, _, _) | Item::ComputeImmediate(_, rd, _, _) => {
                self.held.change(rd, 0)
            }
            Item::Load(rd, rs, c) => {
                if let Some(field) = self.field(rs, c) {
                    self.held.change(rd, field.slot.kind);
                }
            }
            Item::Bnz(rs, _) => self.held.raise(rs),
            Item::Label(l) => self.held = self.packet.label(l).enter(),
            Item::Cpush(l) => {
                if self.held.stack.depth() < STACK as usize {
                    self.held.push(l);
                }
            }
            Item::Halt | Item::Jmp(_) | Item::Store(_, _, _) | Item::Cjmp(_) => {}
        }
    }
}
