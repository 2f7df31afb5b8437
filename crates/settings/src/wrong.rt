// What is wrong with settings, and how it is said.
ghost use Rattle.std.specs.Prelude.{◌≡◌};
ghost use Rattle.console.specs.declared.Standing.TheVariants.{Failed};

use console::Input;
use faults::Fault;
use lines::Unread;
use printing::Output;
use setup::Part;
use tlv::Refusal;

// A line whose setting is invalid, and why.
#[derive(Clone, Copy)]
pub struct Invalid {
    pub line: u64,
    pub why: Fault,
}

// What is wrong with settings: a read has failed; the input ended before the line that was due; a line is not the one due; it names
// another port than the one due, or a port that had its settings before; its port is refused, or its setting invalid.
#[derive(Clone, Copy)]
pub enum Wrong {
    Failed,
    Missing {
        line: u64,
        due: Part,
    },
    Unread {
        line: u64,
        port: Option<u8>,
        why: Unread,
    },
    OtherPort {
        line: u64,
        due: u8,
    },
    Again {
        line: u64,
    },
    Refused {
        line: u64,
        why: Refusal,
    },
    Invalid(Invalid),
}

impl Wrong {
    // Of a line that was due and not found.
    pub fn missing(input: &Input, due: Part) -> Wrong
        ensures { input.now.standing ≡ Failed → result ≡ Wrong.Failed }
    {
        if input.has_failed() {
            return Wrong::Failed;
        }
        Wrong::Missing {
            line: input.number().wrapping_add(1),
            due,
        }
    }

    // Puts what is wrong, a line; of a read that has failed nothing.
    pub fn put(self, page: &mut Output)
        ensures { self ≡ Wrong.Failed → page.new ≡ page.old }
    {
        match self {
            Wrong::Failed => {}
            Wrong::Missing { line, due } => {
                report::errors::missing(page, line, setup::part_name(due));
            }
            Wrong::Unread { line, port, why } => report::errors::unread(
                page, true, line, port, why,
            ),
            Wrong::OtherPort { line, due } => report::errors::port_due(page, line, due),
            Wrong::Again { line } => report::errors::another_due(page, line),
            Wrong::Refused { line, why } => report::answers::refused_setting(page, line, why),
            Wrong::Invalid(invalid) => {
                report::errors::invalid_setting(page, invalid.line, invalid.why);
            }
        }
    }
}
