//! Satellites of a system, by their numbers.
ghost use Rattle.std.specs.Prelude.{◌≡◌, ◌≤◌, ◌↔◌, IsSome};
ghost use Rattle.gnss_system.specs.Satellites.{Satellite, IsSatellite, satellites, satellite_of_id};

use gnss_system::System;
use std::marker::Model;

/// A satellite of a system.
#[derive(Clone, Copy)]
pub struct Sat {
    system: System,
    id: u8,
}

impl Model for Sat {
    ghost Value = { Satellite };

    ghost view = { λ s. record { system = s.system; id = s.id } };

    ghost invariant = { λ s. IsSatellite (record { system = s.system; id = s.id }) };

    ghost inverse = { λ s. record { system = s.system; id = s.id } };
}

impl Default for Sat {
    /// Returns satellite 1 of GPS.
    fn default() -> Sat
        ensures { (result.system ≡ System.Gps) × (result.id ≡ 1) }
    {
        Sat {
            system: System::Gps,
            id: 1,
        }
    }
}

impl Sat {
    /// Returns the satellite with this ID, or `None` if the system has none. The ID is the position
    /// in the satellite mask DF394 of RTCM 10403.3, counted from 1.
    pub fn new(system: System, id: u8) -> Option<Sat>
        ensures value { result ≡ satellite_of_id system id }
        ensures listed { IsSome result ↔ ((1 ≤ id) × (id ≤ satellites system)) }
    {
        if id == 0 || id > system.satellites() {
            return None;
        }
        Some(Sat { system, id })
    }

    /// Returns the system that the satellite belongs to.
    pub fn system(self) -> System
        ensures { result ≡ self.system }
    {
        self.system
    }

    /// Returns the ID of the satellite in its system, from 1.
    pub fn id(self) -> u8
        ensures value { result ≡ self.id }
        ensures listed { IsSatellite self }
    {
        self.id
    }
}
