// The setup for C: its eleven numbers in one row.
ghost use Rattle.std.specs.Prelude.{◌≡◌};
ghost use Rattle.rows.specs.Rows.{row_of, setup_of};

use model::{FingerSetup, Setup};

// 01, 'Setup', in one row.
#[repr(C)]
#[derive(Clone, Copy)]
pub struct SetupRow {
    pub segments: u32,
    pub tension: u32,
    pub stiffness: u32,
    pub viscous: u32,
    pub plain: u32,
    pub finger_stiffness: u16,
    pub finger_mass: u32,
    pub finger_place: u32,
    pub pluck_place: u32,
    pub bridge_place: u32,
    pub neck_place: u32,
}

// The setup that a row says.
impl From<SetupRow> for Setup {
    ghost from_gives = { λ row s. s ≡ setup_of row };

    fn from(row: SetupRow) -> Setup {
        Setup {
            segments: row.segments,
            tension: row.tension,
            stiffness: row.stiffness,
            viscous: row.viscous,
            plain: row.plain,
            finger: FingerSetup {
                place: row.finger_place,
                stiffness: row.finger_stiffness,
                mass: row.finger_mass,
            },
            pluck_place: row.pluck_place,
            bridge_place: row.bridge_place,
            neck_place: row.neck_place,
        }
    }
}

// The row of a setup.
impl From<Setup> for SetupRow {
    ghost from_gives = { λ s row. row ≡ row_of s };

    fn from(setup: Setup) -> SetupRow {
        SetupRow {
            segments: setup.segments,
            tension: setup.tension,
            stiffness: setup.stiffness,
            viscous: setup.viscous,
            plain: setup.plain,
            finger_stiffness: setup.finger.stiffness,
            finger_mass: setup.finger.mass,
            finger_place: setup.finger.place,
            pluck_place: setup.pluck_place,
            bridge_place: setup.bridge_place,
            neck_place: setup.neck_place,
        }
    }
}
