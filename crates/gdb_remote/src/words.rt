//! The words with which requests begin.

ghost use Rattle.std.specs.Prelude.{◌≡◌, MatchOption, None, Some};
ghost use Rattle.gdb_remote.specs.Words.{all_words, found_word, word_text};

/// A word with which a request begins. None is the beginning of another.
#[derive(Clone, Copy)]
pub enum Keyword {
    Status,
    Registers,
    Register,
    Memory,
    Features,
    Description,
    Threads,
    MoreThreads,
    ThreadText,
    IsAlive,
    CurrentThread,
    Attached,
    Actions,
    Choose,
    ChooseToMove,
    SetPoint,
    ClearPoint,
    NoAcknowledgements,
    /// Actions of threads.
    Act,
    Continue,
    ContinueWith,
    Step,
    StepWith,
    ContinueBack,
    StepBack,
    Monitor,
    Detach,
    Kill,
    WriteRegisters,
    WriteRegister,
    WriteMemory,
    WriteBytes,
}

const WORDS: [Keyword; 32] = [
    Keyword::Status,
    Keyword::Registers,
    Keyword::Register,
    Keyword::Memory,
    Keyword::Features,
    Keyword::Description,
    Keyword::Threads,
    Keyword::MoreThreads,
    Keyword::ThreadText,
    Keyword::IsAlive,
    Keyword::CurrentThread,
    Keyword::Attached,
    Keyword::Actions,
    Keyword::Choose,
    Keyword::ChooseToMove,
    Keyword::SetPoint,
    Keyword::ClearPoint,
    Keyword::NoAcknowledgements,
    Keyword::Act,
    Keyword::Continue,
    Keyword::ContinueWith,
    Keyword::Step,
    Keyword::StepWith,
    Keyword::ContinueBack,
    Keyword::StepBack,
    Keyword::Monitor,
    Keyword::Detach,
    Keyword::Kill,
    Keyword::WriteRegisters,
    Keyword::WriteRegister,
    Keyword::WriteMemory,
    Keyword::WriteBytes,
];

impl Keyword {
    /// How the word is spelled.
    fn text(self) -> &'static [u8]
        ensures { result.now ≡ word_text self }
    {
        match self {
            Keyword::Status => b"?",
            Keyword::Registers => b"g",
            Keyword::Register => b"p",
            Keyword::Memory => b"m",
            Keyword::Features => b"qSupported",
            Keyword::Description => b"qXfer:features:read:target.xml:",
            Keyword::Threads => b"qfThreadInfo",
            Keyword::MoreThreads => b"qsThreadInfo",
            Keyword::ThreadText => b"qThreadExtraInfo,",
            Keyword::IsAlive => b"T",
            Keyword::CurrentThread => b"qC",
            Keyword::Attached => b"qAttached",
            Keyword::Actions => b"vCont?",
            Keyword::Choose => b"Hg",
            Keyword::ChooseToMove => b"Hc",
            Keyword::SetPoint => b"Z",
            Keyword::ClearPoint => b"z",
            Keyword::NoAcknowledgements => b"QStartNoAckMode",
            Keyword::Act => b"vCont;",
            Keyword::Continue => b"c",
            Keyword::ContinueWith => b"C",
            Keyword::Step => b"s",
            Keyword::StepWith => b"S",
            Keyword::ContinueBack => b"bc",
            Keyword::StepBack => b"bs",
            Keyword::Monitor => b"qRcmd,",
            Keyword::Detach => b"D",
            Keyword::Kill => b"k",
            Keyword::WriteRegisters => b"G",
            Keyword::WriteRegister => b"P",
            Keyword::WriteMemory => b"M",
            Keyword::WriteBytes => b"X",
        }
    }
}

/// The word with which a text begins, and what stands after it.
pub(crate) fn word_of(text: &[u8]) -> Option<(Keyword, &[u8])>
    ensures { MatchOption result (found_word all_words text.now ≡ None)
        (λ p. found_word all_words text.now ≡ Some (p.0, p.1.now)) }
{
    word_among(&WORDS, text)
}

/// The first of these words with which a text begins, and what stands after it.
fn word_among<'a>(words: &[Keyword], text: &'a [u8]) -> Option<(Keyword, &'a [u8])>
    ensures { MatchOption result (found_word words.now text.now ≡ None)
        (λ p. found_word words.now text.now ≡ Some (p.0, p.1.now)) }
{
    for word in words {
        if let Some(rest) = text.strip_prefix(word.text()) {
            return Some((*word, rest));
        }
    }
    None
}
