//! The fields of satellites and of cells that do not fit their bits.
ghost use Rattle.std.specs.Prelude.{◌≡◌, ◌^◌, ◌<◌, ℕ, Bool, All, IfNone};
ghost use Rattle.std.specs.List.{list_any};
ghost use Rattle.rtcm_msg.specs.Packed.{total_width};
ghost use Rattle.rtcm_msg.specs.Forms as forms;
ghost use Rattle.rtcm_msg.specs.inner.Forms as inner_forms;
ghost use Rattle.rtcm_msg.specs.Forms.{IsSatelliteData, IsCellData, satellite_number, cell_number};
ghost use Rattle.rtcm_msg.specs.declared.fault.Field.{Field};
ghost use Rattle.rtcm_msg.specs.declared.view.Form.{Form};

use crate::data::{
    Cell, INVALID_COARSE_PHASE, INVALID_COARSE_RANGE, INVALID_FINE_PHASE, INVALID_FINE_RANGE,
    INVALID_FINE_RATE, INVALID_ROUGH_RATE, Satellite,
};
use crate::fault::{Field, first_of};
use crate::layout::{DF397, DF398, DF402, DF403, DF407, DF408, DF419};
use crate::view::Form;

impl Form {
    /// Returns the first field, in the order of the layout, that does not fit its bits in some
    /// satellite.
    pub(crate) fn satellite_fault(self, satellites: &[Satellite]) -> Option<Field>
        ensures first { result ≡ inner_forms.satellite_fault self satellites.now }
        ensures none { IfNone result (All (IsSatelliteData self) satellites.now) }
    {
        first_of(&[
            tested(self, satellites, Field::RangeWhole),
            tested(self, satellites, Field::Extended),
            tested(self, satellites, Field::RangeFraction),
            tested(self, satellites, Field::RoughRate),
        ])
    }

    /// Returns the first field, in the order of the layout, that does not fit its bits in some
    /// cell.
    pub(crate) fn cell_fault(self, cells: &[Cell]) -> Option<Field>
        ensures first { result ≡ inner_forms.cell_fault self cells.now }
        ensures none { IfNone result (All (IsCellData self) cells.now) }
    {
        first_of(&[
            tested(self, cells, Field::FineRange),
            tested(self, cells, Field::FinePhase),
            tested(self, cells, Field::Lock),
            tested(self, cells, Field::Strength),
            tested(self, cells, Field::FineRate),
        ])
    }
}

/// The fields of a satellite or of a cell, which may not fit their bits.
pub(crate) trait HasFields {
    /// Whether a field does not fit its bits.
    ghost is_bad: { Form → Field → Self → Bool };

    /// Each field fits its bits.
    ghost fit: { Form → Self → Type 0 };

    /// The fields in one number, the first field in the most significant bits.
    ghost number: { Form → Self → ℕ };

    /// The sum of the widths.
    ghost width: { Form → ℕ };

    /// Returns whether a field does not fit its bits.
    fn is_bad(&self, form: Form, field: Field) -> bool
        ensures { result ≡ is_bad form field self.now };

    /// Returns the fields in one number, the first field in the most significant bits.
    fn number(&self, form: Form) -> u128
        requires { fit form self.now }
        ensures value { result ≡ number form self.now }
        ensures fits { result < 2 ^ width form };
}

impl HasFields for Satellite {
    ghost is_bad = { inner_forms.is_bad_satellite };

    ghost fit = { IsSatelliteData };

    ghost number = { satellite_number };

    ghost width = { λ f. total_width (forms.satellite_widths f) };

    #[tactic(auto, using(crate::proofs::FormLaws::satellite_fits))]
    fn number(&self, form: Form) -> u128 {
        form.satellite_number(self) as u128
    }

    // The first test never succeeds. It brings the bound of a `u8` into the proof.
    fn is_bad(&self, form: Form, field: Field) -> bool {
        let rates = form.has_rates();
        match field {
            Field::RangeWhole => self.whole as u16 >= 1 << DF397,
            Field::Extended => self.extended >= if rates { 1 << DF419 } else { 1 },
            Field::RangeFraction => self.fraction >= 1 << DF398,
            _ if rates => self.rate < INVALID_ROUGH_RATE || self.rate >= -INVALID_ROUGH_RATE,
            _ => self.rate != INVALID_ROUGH_RATE,
        }
    }
}

impl HasFields for Cell {
    ghost is_bad = { inner_forms.is_bad_cell };

    ghost fit = { IsCellData };

    ghost number = { cell_number };

    ghost width = { λ f. total_width (forms.cell_widths f) };

    #[tactic(auto, using(crate::proofs::FormLaws::cell_fits))]
    fn number(&self, form: Form) -> u128 {
        form.cell_number(self)
    }

    fn is_bad(&self, form: Form, field: Field) -> bool {
        let fine = form.is_fine();
        match field {
            Field::FineRange if fine => self.range < INVALID_FINE_RANGE
                || self.range >= -INVALID_FINE_RANGE,
            Field::FineRange => self.range < INVALID_COARSE_RANGE
                || self.range >= -INVALID_COARSE_RANGE,
            Field::FinePhase if fine => self.phase < INVALID_FINE_PHASE
                || self.phase >= -INVALID_FINE_PHASE,
            Field::FinePhase => self.phase < INVALID_COARSE_PHASE
                || self.phase >= -INVALID_COARSE_PHASE,
            Field::Lock => self.lock >= if fine { 1 << DF407 } else { 1 << DF402 },
            Field::Strength => self.strength >= if fine { 1 << DF408 } else { 1 << DF403 },
            _ if form.has_rates() => self.rate < INVALID_FINE_RATE
                || self.rate >= -INVALID_FINE_RATE,
            _ => self.rate != INVALID_FINE_RATE,
        }
    }
}

/// Returns whether a field does not fit its bits in some of the data, with the field.
fn tested<T: HasFields>(form: Form, items: &[T], field: Field) -> (bool, Field)
    ensures bad { result.0 ≡ list_any (T.is_bad form field) items.now }
    ensures field { result.1 ≡ field }
{
    (items.iter().any(|item| item.is_bad(form, field)), field)
}
