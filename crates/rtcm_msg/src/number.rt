//! The message numbers, and which of them are decoded.
ghost use Rattle.std.specs.Prelude.{◌≡◌, ◌<◌, ◌^◌};
ghost use Rattle.rtcm_msg.specs.Numbers as numbers;

use crate::view::Form;
use gnss_system::{BySystem, System};

/// What a message of a number contains.
#[derive(Clone, Copy)]
pub(crate) enum Kind {
    /// A station message, with an antenna height or without.
    Station(bool),
    /// An MSM of a form and a system.
    Msm(Form, System),
    /// A message that isn't decoded.
    Other,
}

/// Returns the message number of a form and a system, DF002.
pub(crate) fn message_number(form: Form, system: System) -> u16
    ensures value { result ≡ numbers.message_number form system }
    ensures bound { result < 2 ^ 12 }
{
    system.msm_tens() * 10 + form as u16
}

/// Returns the form whose message numbers end with a digit.
fn form_of_digit(digit: u16) -> Option<Form>
    ensures { result ≡ numbers.form_of_digit digit }
{
    match digit {
        4 => Some(Form::Msm4),
        5 => Some(Form::Msm5),
        6 => Some(Form::Msm6),
        7 => Some(Form::Msm7),
        _ => None,
    }
}

/// The forms of the MSMs that are decoded.
#[derive(Clone, Copy, PartialEq)]
pub enum Forms {
    /// MSM4 and MSM7.
    FourAndSeven,
    /// MSM4 to MSM7.
    All,
}

impl Forms {
    /// Returns whether a form is one of them.
    pub fn have(self, form: Form) -> bool
        ensures { result ≡ numbers.have_form self form }
    {
        matches!(self, Forms::All) || form.is_fine() == form.has_rates()
    }
}

/// The MSMs that are decoded: those of these systems in these forms. Messages 1005 and 1006 always
/// are.
#[derive(Drop)]
pub struct MsmSet {
    /// Whether those of a system are.
    pub systems: BySystem<bool>,
    /// The forms.
    pub forms: Forms,
}

impl Default for MsmSet {
    /// Returns the set of messages 1074, 1077, 1094 and 1097: MSM4 and MSM7 of GPS and Galileo.
    fn default() -> MsmSet
        ensures { result ≡ numbers.default_set }
    {
        MsmSet {
            systems: BySystem::of_two(true, true, false),
            forms: Forms::FourAndSeven,
        }
    }
}

impl MsmSet {
    /// Returns the set of all MSMs that `decode` decodes.
    pub fn all() -> MsmSet
        ensures { result ≡ numbers.whole_set }
    {
        MsmSet {
            systems: BySystem::of_two(true, true, true),
            forms: Forms::All,
        }
    }

    /// Returns what a message of this number contains if the MSMs of the set are decoded.
    pub(crate) fn kind(&self, number: u16) -> Kind
        ensures { result ≡ numbers.kind_with self.now number }
    {
        if number == 1005 || number == 1006 {
            return Kind::Station(number == 1006);
        }
        match (
            form_of_digit(number % 10),
            System::from_msm_tens(number / 10),
        ) {
            (Some(form), Some(system)) if *self.systems.of(system) && self.forms.have(form) => {
                Kind::Msm(form, system)
            }
            _ => Kind::Other,
        }
    }
}
