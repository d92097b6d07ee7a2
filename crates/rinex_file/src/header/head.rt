//! A header, line by line.
ghost use Rattle.std.specs.Prelude.{◌≡◌, ◌<◌, [], true, IfNone, IfSome};
ghost use Rattle.std.specs.Iterator.{YieldsFirstBy, item_count};
ghost use Rattle.rinex_file.specs.Header.{row_line, has_line, header_lines, systems_letter};
ghost use Rattle.rinex_file.specs.inner.Header.{row_at, row_count, lines_after};
ghost use Rattle.rinex_file.specs.inner.Heads.{shown_by};

use crate::header::lines::{
    UNIT, delta_line, first_line, flagged_letter, interval_line, position_line, texts_line,
    version_line,
};
use crate::header::lists::{slot_rows, slots_in, slots_with, type_rows, types_with};
use crate::header::rows::{HeaderRow, ROW_COUNT, row_at};
use crate::header::texts::HeaderTexts;
use gnss_obs::{GpsTime, Interval, Plan, StationValues};
use gnss_system::{BySystem, System};
use rinex_columns::Line;
use std::marker::Model;

/// The contents of a header.
#[derive(Drop)]
pub struct Head<'a> {
    /// The texts.
    pub texts: &'a HeaderTexts,
    /// The interval of the observations. Without one the header has no line for it.
    pub interval: Option<Interval>,
    /// The signals whose observations the file has.
    pub plan: &'a Plan,
    /// Position and height of the antenna, in 0.0001 m.
    pub values: StationValues,
    /// The time of the first epoch in the file.
    pub first: GpsTime,
}

/// Returns whether a row has a line.
fn has_line(head: &Head, row: HeaderRow) -> bool
    ensures { result ≡ has_line (shown_by head.now) row }
{
    let plan = head.plan;
    match row {
        HeaderRow::Texts(row) => head.texts.has_row(row),
        HeaderRow::Interval => head.interval.is_some(),
        HeaderRow::Types(system, row) => row < type_rows(plan.signals(system)),
        HeaderRow::Shift(system) => plan.signals(system) > 0,
        HeaderRow::Slots(0) | HeaderRow::Biases => plan.signals(System::Glonass) > 0,
        HeaderRow::Slots(row) => row < slot_rows(slots_in(plan.channels())),
        _ => true,
    }
}

/// Returns the index of the first row with a line, at `from` or later.
fn place_from(head: &Head, from: usize) -> Option<usize>
    ensures none { IfNone result (lines_after (shown_by head.now) from ≡ []) }
    ensures bound { IfSome result (λ place. place < row_count) }
    ensures here { IfSome result (λ place. has_line (shown_by head.now) (row_at place) ≡ true) }
    ensures same { IfSome result (λ place. lines_after (shown_by head.now) from ≡ lines_after (shown_by head.now) place) }
{
    for place in from..ROW_COUNT {
        if has_line(head, row_at(place)) {
            return Some(place);
        }
    }
    None
}

/// Returns the letter of the systems that are planned.
fn systems_letter(plan: &Plan) -> u8
    ensures { result ≡ systems_letter plan.now }
{
    flagged_letter(&BySystem::each(|system| plan.signals(system) > 0))
}

/// Returns the line of a row.
#[tactic(auto, unfolding(crate::specs::Header::row_line))]
fn line_of(head: &Head, row: HeaderRow) -> Line
    requires { has_line (shown_by head.now) row ≡ true }
    ensures { result.items ≡ row_line (shown_by head.now) row }
{
    match row {
        HeaderRow::Version => version_line(systems_letter(head.plan)),
        HeaderRow::Texts(row) => texts_line(head.texts, row),
        HeaderRow::Position => position_line(&head.values),
        HeaderRow::Delta => delta_line(&head.values),
        HeaderRow::Types(system, row) => {
            let signals = head.plan.of(system);
            types_with(system, signals.len(), signals, row)
        }
        HeaderRow::StrengthUnit => row.line(UNIT),
        HeaderRow::Interval => interval_line(head.interval.unwrap()),
        HeaderRow::First => first_line(head.first),
        HeaderRow::Shift(system) => row.line(&[system.letter()]),
        HeaderRow::Slots(row) => {
            let channels = head.plan.channels();
            slots_with(slots_in(channels), channels, row)
        }
        HeaderRow::Biases | HeaderRow::End => row.line(b""),
    }
}

/// Iterator over the lines of a header that are left.
#[derive(Drop)]
pub struct HeaderLines<'a> {
    head: Head<'a>,
    place: usize,
}

impl<'a> Model for HeaderLines<'a> {
    ghost use Rattle.std.specs.Prelude.{ℕ, List};
    ghost use Rattle.rinex_file.specs.inner.Header.{lines_after};
    ghost use Rattle.rinex_file.specs.inner.Heads.{shown_by};

    ghost Value = { List (List ℕ) };

    ghost view = { λ s. lines_after (shown_by s.head) s.place };
}

impl<'a> Iterator for HeaderLines<'a> {
    type Item = Line;

    ghost next_gives = { YieldsFirstBy (λ line. line.items) (λ lines. lines) };

    ghost remaining = { item_count (λ lines. lines) };

    fn next(&mut self) -> Option<Line> {
        let place = place_from(&self.head, self.place)?;
        self.place = place + 1;
        Some(line_of(&self.head, row_at(place)))
    }
}

/// Returns the lines of a header in order, each with its line feed.
pub fn header_lines<'a>(head: &Head<'a>) -> HeaderLines<'a>
    ensures { result ≡ header_lines (shown_by head.now) }
{
    HeaderLines {
        head: Head {
            texts: head.texts,
            interval: head.interval,
            plan: head.plan,
            values: head.values,
            first: head.first,
        },
        place: 0,
    }
}
