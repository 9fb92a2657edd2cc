//! The options of the commands.

ghost use Rattle.std.specs.Prelude.{◌≡◌, ◌≢◌, MatchOption};
ghost use Rattle.command_line.specs.Table as model;
ghost use Rattle.command_line.specs.Reading.{id_of};
ghost use Rattle.command_line.specs.Table.{is_valued, name_of, settings_of, text_of};
ghost use Rattle.command_line.specs.Table.{view_settings, view_text};

/// How a command uses a file.
#[derive(Clone, Copy)]
pub(crate) enum Access {
    Read,
    Write,
}

/// What an option is given.
#[derive(Clone, Copy)]
pub(crate) enum Kind {
    /// A number from `low` to `high`, which is `default` where the option is not there.
    Number { low: u64, high: u64, default: u64 },
    /// A number from `low` to `high`, or none where the option is not there.
    MaybeNumber { low: u64, high: u64 },
    /// An address of 32 bits, or none where the option is not there.
    MaybeAddress,
    /// The name of a file.
    File(Access),
    /// Nothing: it is there, or not.
    Flag,
}

/// An option.
#[derive(Clone, Copy)]
pub(crate) enum Setting {
    Nodes,
    Order,
    Budget,
    Layout,
    Code,
    Verify,
    Record,
    Brief,
    NoBatch,
    Loss,
    PerNode,
    From,
    To,
    Block,
    Node,
    Latency,
    Line,
    Handling,
    Memory,
}

/// What an argument is for.
#[derive(Clone, Copy)]
pub(crate) enum Role {
    /// A place of the command.
    Operand,
    Option(Setting),
}

/// The word of a command.
#[derive(Clone, Copy)]
pub(crate) enum CommandWord {
    Rewrite,
    Run,
    List,
    One,
    Sim,
    Replay,
    Generate,
    Assemble,
}

/// The word of a view.
#[derive(Clone, Copy)]
pub(crate) enum ViewWord {
    Help,
    Code,
    Trace,
    Blocks,
    Page,
    Time,
    Cost,
    Speedup,
    Gdb,
}

impl CommandWord {
    /// The command's word that a word is.
    pub(crate) fn of(word: &str) -> Option<CommandWord>
        ensures { MatchOption result ((w : CommandWord) → text_of w ≢ word.now)
            (λ w. text_of w ≡ word.now) }
    {
        match word {
            "rewrite" => Some(CommandWord::Rewrite),
            "run" => Some(CommandWord::Run),
            "list" => Some(CommandWord::List),
            "one" => Some(CommandWord::One),
            "sim" => Some(CommandWord::Sim),
            "replay" => Some(CommandWord::Replay),
            "gen" => Some(CommandWord::Generate),
            "asm" => Some(CommandWord::Assemble),
            _ => None,
        }
    }

    /// The options of the command.
    pub(crate) fn settings(self) -> &'static [Setting]
        ensures { result.now ≡ settings_of self }
    {
        match self {
            CommandWord::Run => &[
                Setting::Record,
                Setting::Nodes,
                Setting::Budget,
                Setting::Code,
                Setting::Verify,
                Setting::Layout,
                Setting::Brief,
                Setting::NoBatch,
            ],
            CommandWord::Rewrite => &[Setting::NoBatch],
            CommandWord::List => &[],
            CommandWord::Replay => &[Setting::Verify, Setting::Brief],
            CommandWord::Generate => &[],
            CommandWord::Assemble => &[],
            CommandWord::One => &[
                Setting::Nodes,
                Setting::Order,
                Setting::Budget,
                Setting::Layout,
            ],
            CommandWord::Sim => &[
                Setting::Order,
                Setting::Loss,
                Setting::PerNode,
                Setting::Nodes,
                Setting::Budget,
                Setting::Code,
                Setting::Verify,
                Setting::Layout,
                Setting::Brief,
                Setting::NoBatch,
            ],
        }
    }
}

impl ViewWord {
    /// The view's word that a word is.
    pub(crate) fn of(word: &str) -> Option<ViewWord>
        ensures { MatchOption result ((w : ViewWord) → view_text w ≢ word.now)
            (λ w. view_text w ≡ word.now) }
    {
        match word {
            "--help" => Some(ViewWord::Help),
            "code" => Some(ViewWord::Code),
            "trace" => Some(ViewWord::Trace),
            "blocks" => Some(ViewWord::Blocks),
            "page" => Some(ViewWord::Page),
            "time" => Some(ViewWord::Time),
            "cost" => Some(ViewWord::Cost),
            "speedup" => Some(ViewWord::Speedup),
            "gdb" => Some(ViewWord::Gdb),
            _ => None,
        }
    }

    /// The options of the view.
    pub(crate) fn settings(self) -> &'static [Setting]
        ensures { result.now ≡ view_settings self }
    {
        match self {
            ViewWord::Help => &[],
            ViewWord::Code => &[Setting::Verify, Setting::NoBatch],
            ViewWord::Trace => &[
                Setting::Verify,
                Setting::From,
                Setting::To,
                Setting::Block,
                Setting::Node,
            ],
            ViewWord::Blocks => &[Setting::Verify],
            ViewWord::Page => &[Setting::Verify, Setting::From, Setting::To],
            ViewWord::Time | ViewWord::Speedup => &[
                Setting::Nodes,
                Setting::Budget,
                Setting::Verify,
                Setting::Layout,
                Setting::NoBatch,
                Setting::Latency,
                Setting::Line,
                Setting::Handling,
            ],
            ViewWord::Cost => &[Setting::Verify, Setting::NoBatch],
            ViewWord::Gdb => &[Setting::Verify, Setting::Memory],
        }
    }
}

impl Setting {
    /// Its name, which is its word on the command line without the two dashes.
    pub(crate) fn name<'a>(self) -> &'a str
        ensures { result.now ≡ name_of self }
    {
        match self {
            Setting::Nodes => "nodes",
            Setting::Order => "order",
            Setting::Budget => "budget",
            Setting::Layout => "layout",
            Setting::Code => "code",
            Setting::Verify => "verify",
            Setting::Record => "record",
            Setting::Brief => "brief",
            Setting::NoBatch => "no-batch",
            Setting::Loss => "loss",
            Setting::PerNode => "per-node",
            Setting::From => "from",
            Setting::To => "to",
            Setting::Block => "block",
            Setting::Node => "node",
            Setting::Latency => "latency",
            Setting::Line => "line",
            Setting::Handling => "handling",
            Setting::Memory => "memory",
        }
    }

    /// What it is given.
    pub(crate) fn kind(self) -> Kind
        ensures { result ≡ model.kind_of self }
    {
        match self {
            Setting::Nodes => Kind::Number {
                low: 1,
                high: 16,
                default: 1,
            },
            Setting::Order => Kind::Number {
                low: 0,
                high: u32::MAX as u64,
                default: 0,
            },
            Setting::Budget => Kind::Number {
                low: 1,
                high: 1 << 32,
                default: 100_000_000,
            },
            Setting::Layout | Setting::Code | Setting::Verify => Kind::File(Access::Read),
            Setting::Record => Kind::File(Access::Write),
            Setting::Brief | Setting::NoBatch => Kind::Flag,
            Setting::Loss => Kind::MaybeNumber {
                low: 0,
                high: u32::MAX as u64,
            },
            Setting::PerNode => Kind::MaybeNumber { low: 2, high: 4 },
            Setting::From | Setting::To => Kind::MaybeNumber {
                low: 0,
                high: (1 << 56) - 1,
            },
            Setting::Block => Kind::MaybeAddress,
            Setting::Node => Kind::MaybeNumber { low: 0, high: 15 },
            Setting::Latency => Kind::Number {
                low: 0,
                high: 1_000_000,
                default: 1200,
            },
            Setting::Line | Setting::Handling | Setting::Memory => Kind::Number {
                low: 0,
                high: 1_000_000,
                default: 300,
            },
        }
    }

    /// Whether it takes a value.
    pub(crate) fn takes_value(self) -> bool
        ensures { result ≡ is_valued self }
    {
        match self.kind() {
            Kind::Number { .. } | Kind::MaybeNumber { .. } | Kind::MaybeAddress | Kind::File(_) =>
                true,
            Kind::Flag => false,
        }
    }
}

impl Role {
    /// The name under which its words are kept.
    pub(crate) fn id<'a>(self) -> &'a str
        ensures { result.now ≡ id_of self }
    {
        match self {
            Role::Operand => "operand",
            Role::Option(setting) => setting.name(),
        }
    }
}
