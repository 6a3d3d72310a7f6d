// The rule behind each refusal, in a sentence for someone who has not read the documents.
use refusals::Refusal;
use std::fmt;

// The end of the line before, and the rule.
#[derive(Clone, Copy)]
pub struct Rule(pub Refusal);

impl fmt::Display for Rule {
    fn fmt<W: fmt::Write>(&self, f: &mut fmt::Formatter<W>) -> fmt::Result {
        let sentence = sentence(self.0);
        write!(f, "\nRule: {sentence}.\n")
    }
}

fn sentence(refusal: Refusal) -> &'static str {
    match refusal {
        Refusal::Ended => "a packet goes on to the last byte of its last number",
        Refusal::Malformed => {
            "a number has seven bits in each byte, lowest first, the top bit set on all bytes but its last; \
            it takes no more bytes than it needs, five at most, and is below 4294967296"
        }
        Refusal::WrongEdition => {
            "a packet begins with the edition by which it is written, and there is edition 1 only"
        }
        Refusal::OutOfRange => "each number lies in the range of what it stands for",
        Refusal::LeftOver => "a packet ends with its last item",
        Refusal::TooLong => "a packet has at most 65536 bytes",
        _ => sentence_of_items(refusal),
    }
}

fn sentence_of_items(refusal: Refusal) -> &'static str {
    match refusal {
        Refusal::NoLabel => {
            "a label stands first, and behind each halt, jmp and cjmp: nothing else says what holds there"
        }
        Refusal::PlacedTwice => "a label is placed once",
        Refusal::FirstStack => "the first label has an empty stack, for nothing is pushed yet",
        Refusal::NotListed => {
            "an item uses r0 and the registers that are listed where it stands, and no other"
        }
        Refusal::WrongSort => {
            "arithmetic and bnz read integers, load and store go through a pointer"
        }
        Refusal::LevelRule => {
            "what is known only at one level may show only at levels that have all its compartments; \
            a level is the sum of its compartments, which are 1, 2, 4 and so on to 128"
        }
        Refusal::NoField => "load and store name a field that the pointer's shape has",
        Refusal::StackRule => {
            "a jump, and a fall into a label, comes with the label's own stack; \
            cjmp comes with its label on top of that; halt comes with an empty stack"
        }
        Refusal::NotMet => {
            "each register that a label lists comes there with the same kind and level"
        }
        Refusal::WritesR0 => "r0 always holds 0, and no arithmetic or load writes it",
        Refusal::PushPast => "a stack holds at most 16 labels",
        Refusal::OpenEnd => { "the last item is halt, jmp or cjmp: nothing comes behind it" }
        Refusal::NeverPlaced => "each label of the packet is placed by an item",
        Refusal::NotTheField => "what is stored has exactly the field's kind and level",
        // The others are of calls, and no packet gets them.
        _ => "",
    }
}
