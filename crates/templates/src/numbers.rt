//! The numbers of templates, by which a plan is written into a file.

ghost use Rattle.std.specs.Prelude.{◌≡◌, ◌<◌, ◌↔◌, Some};
ghost use Rattle.templates.specs.Numbers.{number_of};

use crate::plans::Template;

impl Template {
    /// Its number.
    pub fn number(self) -> u8
        ensures value { result ≡ number_of self }
        ensures small { result < 14 }
    {
        match self {
            Template::Plain => 0,
            Template::Const => 1,
            Template::Branch => 2,
            Template::BranchBad => 3,
            Template::Jump => 4,
            Template::JumpBad => 5,
            Template::Indirect => 6,
            Template::Call => 7,
            Template::Trap => 8,
            Template::Stop => 9,
            Template::FlagLoad => 10,
            Template::StateLoad => 11,
            Template::Store => 12,
            Template::StoreCond => 13,
        }
    }

    /// The template that has a number; None exactly where none has.
    pub fn of_number(number: u8) -> Option<Template>
        ensures { (t : Template) → (result ≡ Some t) ↔ (number_of t ≡ number) }
    {
        match number {
            0 => Some(Template::Plain),
            1 => Some(Template::Const),
            2 => Some(Template::Branch),
            3 => Some(Template::BranchBad),
            4 => Some(Template::Jump),
            5 => Some(Template::JumpBad),
            6 => Some(Template::Indirect),
            7 => Some(Template::Call),
            8 => Some(Template::Trap),
            9 => Some(Template::Stop),
            10 => Some(Template::FlagLoad),
            11 => Some(Template::StateLoad),
            12 => Some(Template::Store),
            13 => Some(Template::StoreCond),
            _ => None,
        }
    }
}
