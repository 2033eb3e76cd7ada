//! The source of a gauge. `Room::make` hands out one for each gauge, `Room::raise` asks for it, and the close of the room takes
//! it back.
use room_table::SourceSeat;
use std::marker::Model;

/// The right to raise one gauge. Between any two calls a scan was asked for up to all that it stored.
#[derive(Drop)]
pub struct Source {
    pub(crate) seat: SourceSeat,
    pub(crate) gauge: u32,
    // what it stored last
    pub(crate) value: u64,
}

impl Model for Source {
    ghost use Rattle.room_table.specs.Seats.{SourceView};
    ghost use Rattle.purgatory.specs.Sources.{IsSource};

    ghost Value = { SourceView };

    ghost view = { λ s. s.seat };

    ghost invariant = { λ s. IsSource s.gauge s.value s.seat };
}

impl Source {
    ghost use Rattle.std.specs.Prelude.{◌≡◌, false};
    ghost use Rattle.room_core.specs.Gauges.{IsGauge};
    ghost use Rattle.room_table.specs.Seats.{source_now};

    /// The number of its gauge.
    pub fn gauge(&self) -> u32
        ensures is { result ≡ self.now.gauge }
        ensures there { IsGauge self.now.table.shape result }
        ensures quiet { (source_now self.now).loud ≡ false }
    {
        self.gauge
    }

    /// A law, which does nothing: between any two calls a scan was asked for up to all that the source stored.
    pub fn stays_quiet(&self)
        ensures there { IsGauge self.now.table.shape self.now.gauge }
        ensures quiet { (source_now self.now).loud ≡ false }
    {
        // what holds of a source is known where one of its fields is used
        let _ = &self.seat;
    }

    /// The value of its gauge, as this source stored it last: 0 at first. It may raise the gauge to this value or past it.
    pub fn value(&self) -> u64
        ensures { result ≡ (source_now self.now).stored }
    {
        self.value
    }
}
