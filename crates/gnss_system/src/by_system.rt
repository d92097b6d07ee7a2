//! A value for each satellite system.
ghost use Rattle.std.specs.Prelude.{◌≡◌, Ok, IfOk};
ghost use Rattle.gnss_system.specs.SystemValues.{value_of, lends_value_of, of_two};

use crate::system::System;
use crate::systems;
use std::alloc::AllocError;

/// A value for each satellite system.
#[derive(Clone, Copy, Drop)]
pub struct BySystem<T> {
    /// The value of GPS.
    pub gps: T,
    /// The value of Galileo.
    pub galileo: T,
    /// The value of GLONASS.
    pub glonass: T,
    /// The value of BeiDou.
    pub beidou: T,
    /// The value of QZSS.
    pub qzss: T,
    /// The value of SBAS.
    pub sbas: T,
}

/// What a function returns for each system, with `?` unless it returned an error.
macro_rules! values {
    ([$f:ident] $($index:literal $system:ident $value:ident $row:ident),*) => {
        BySystem {
            $($value: $f(System::$system),)*
        }
    };
    ([$f:ident ?] $($index:literal $system:ident $value:ident $row:ident),*) => {
        BySystem {
            $($value: $f(System::$system)?,)*
        }
    };
}

/// The value of a system, lent by these values.
macro_rules! value {
    ([$of:expr, & $values:ident] $($index:literal $system:ident $value:ident $row:ident),*) => {
        match $of {
            $(System::$system => &$values.$value,)*
        }
    };
    ([$of:expr, &mut $values:ident] $($index:literal $system:ident $value:ident $row:ident),*) => {
        match $of {
            $(System::$system => &mut $values.$value,)*
        }
    };
}

impl<T> BySystem<T> {
    ghost use Rattle.std.specs.Borrow.{sem};
    ghost use Rattle.gnss_system.specs.declared.system.System.{System};

    /// Returns what a function returns for each system.
    pub fn each<F: Fn(System) -> T>(f: F) -> BySystem<T>
        requires { F.IsAlwaysCallable f }
        ensures { (s : System) → F.post f s (value_of s result) }
    {
        systems!(values f)
    }

    /// Returns what a function returns for each system.
    ///
    /// # Errors
    ///
    /// `AllocError` if an allocation of the function failed.
    pub fn try_each<F: Fn(System) -> Result<T, AllocError>>(f: F) -> Result<BySystem<T>, AllocError>
    where
        T: Drop,
        requires { F.IsAlwaysCallable f }
        ensures { IfOk result (λ values. (s : System) → F.post f s (Ok (value_of s values))) }
    {
        Ok(systems!(values f?))
    }

    /// Returns the values of GPS and Galileo, and the same one for each other system.
    pub fn of_two(gps: T, galileo: T, other: T) -> BySystem<T>
    where
        T: Copy,
        ensures { result ≡ of_two gps galileo other }
    {
        BySystem {
            gps,
            galileo,
            ..BySystem::each(|_| other)
        }
    }

    /// Returns the value of a system.
    pub fn of(&self, system: System) -> &T
        ensures { result.now ≡ value_of system self.now }
    {
        systems!(value system, &self)
    }

    /// Returns the value of a system, to change it.
    pub fn of_mut(&mut self, system: System) -> &mut T
        ensures* lends { sem 𝓛 (lends_value_of T.row system self.entry result) }
        ensures value { result.now ≡ value_of system self.old }
    {
        systems!(value system, &mut self)
    }
}
