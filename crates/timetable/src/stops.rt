use calendar::settings::SettingFault;
use inquiries::reading::InquiryFault;
use ledger::faults::{BoardFault, BookFault};
use lines::faults::LineFault;
use std::alloc::AllocError;
use std::{fmt, io};

// Why the program stops: the step that was refused, or that nothing can be told or read.
#[derive(Drop)]
pub(crate) enum Stop {
    Inquiry(InquiryFault),
    Stations(SettingFault),
    Line(LineFault),
    Board(BoardFault),
    Book(BookFault),
    Run(LineFault),
    Io(io::Error),
}

impl From<InquiryFault> for Stop {
    fn from(fault: InquiryFault) -> Stop {
        Stop::Inquiry(fault)
    }
}

impl From<SettingFault> for Stop {
    fn from(fault: SettingFault) -> Stop {
        Stop::Stations(fault)
    }
}

impl From<BoardFault> for Stop {
    fn from(fault: BoardFault) -> Stop {
        Stop::Board(fault)
    }
}

impl From<BookFault> for Stop {
    fn from(fault: BookFault) -> Stop {
        Stop::Book(fault)
    }
}

impl From<io::Error> for Stop {
    fn from(error: io::Error) -> Stop {
        Stop::Io(error)
    }
}

impl From<AllocError> for Stop {
    fn from(error: AllocError) -> Stop {
        Stop::Io(error.into())
    }
}

impl fmt::Display for Stop {
    fn fmt<W: fmt::Write>(&self, f: &mut fmt::Formatter<W>) -> fmt::Result {
        match self {
            Stop::Inquiry(_) => write!(f, "inquiry: refused 16"),
            Stop::Stations(fault) => write!(f, "stations: refused {}", fault.number()),
            Stop::Line(fault) => write!(f, "line: refused {}", fault.number()),
            Stop::Board(fault) => write!(f, "board: refused {}", fault.number()),
            Stop::Book(fault) => write!(f, "book: refused {}", fault.number()),
            Stop::Run(fault) => write!(f, "run: refused {}", fault.number()),
            Stop::Io(error) => write!(f, "{error}"),
        }
    }
}
