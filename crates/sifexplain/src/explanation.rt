// A refused packet in words: where it is refused, and for an item the context in which it stands; the rule; what
// was wanted and what was found.
use crate::blocks::{FirstStack, LabelDue, NeverPlaced, Numbered, OpenEnd, PlacedTwice};
use crate::contexts::Here;
use crate::dues::Due;
use crate::findings::Finding;
use crate::found::Found;
use crate::packet::Packet;
use crate::ranges::Range;
use crate::rules_in_words::Rule;
use crate::stands::fault_stand;
use listing::limits::BYTES;
use refusals::{Fault, Refusal};
use std::fmt;

// A refusal of the reader has a byte as its place, and one of the checker an item.
#[derive(Clone, Copy)]
pub struct Explanation<'a> {
    pub packet: Packet<'a>,
    pub fault: Fault,
}

impl fmt::Display for Explanation<'_> {
    fn fmt<W: fmt::Write>(&self, f: &mut fmt::Formatter<W>) -> fmt::Result {
        let Fault { refusal, place } = self.fault;
        let rule = Rule(refusal);
        match refusal {
            Refusal::TooLong => write!(
                f,
                "The whole packet{rule}Wanted: {BYTES} bytes or fewer.\nFound: more.\n"
            ),
            Refusal::LeftOver => {
                let length = self.packet.bytes.len();
                write!(
                    f,
                    "At byte {place} of the packet: its end{rule}Wanted: {place} bytes.\nFound: {length} bytes.\n"
                )
            }
            Refusal::Ended | Refusal::Malformed | Refusal::WrongEdition | Refusal::OutOfRange =>
                self.number(f),
            Refusal::OpenEnd | Refusal::NeverPlaced => self.end(f),
            _ => self.item(f),
        }
    }
}

impl Explanation<'_> {
    // The number that the reader refuses.
    fn number<W: fmt::Write>(&self, f: &mut fmt::Formatter<W>) -> fmt::Result {
        let packet = self.packet;
        let stand = fault_stand(packet.bytes);
        let due = Due { packet, stand };
        let rule = Rule(self.fault.refusal);
        let wanted = Range::from(stand.wanted);
        let found = Found {
            bytes: packet.bytes,
            at: stand.at,
        };
        write!(f, "{due}{rule}Wanted: {wanted}.\nFound: {found}.\n")
    }

    // The end of a list of so many items.
    fn end<W: fmt::Write>(&self, f: &mut fmt::Formatter<W>) -> fmt::Result {
        let packet = self.packet;
        let last = Numbered {
            packet,
            i: self.fault.place.saturating_sub(1),
        };
        let rule = Rule(self.fault.refusal);
        write!(f, "At the end of the list, behind item {last}{rule}")?;
        match self.fault.refusal {
            Refusal::OpenEnd => write!(f, "{}", OpenEnd(last)),
            _ => write!(f, "{}", NeverPlaced(packet)),
        }
    }

    // An item. Where no block is open there is no context to tell. A label that is placed twice does not depend on
    // it.
    fn item<W: fmt::Write>(&self, f: &mut fmt::Formatter<W>) -> fmt::Result {
        let packet = self.packet;
        let item = Numbered {
            packet,
            i: self.fault.place,
        };
        let rule = Rule(self.fault.refusal);
        write!(f, "Item {item}")?;
        match self.fault.refusal {
            Refusal::NoLabel => write!(f, "{rule}{}", LabelDue(item)),
            Refusal::PlacedTwice => write!(f, "{rule}{}", PlacedTwice(item)),
            Refusal::FirstStack => write!(f, "{rule}{}", FirstStack(item)),
            refusal => {
                let here = Here::new(packet, self.fault.place);
                let finding = Finding {
                    here: &here,
                    refusal,
                };
                write!(f, "{here}{rule}{finding}")
            }
        }
    }
}
