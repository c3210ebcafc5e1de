// The interface of a leg.
ghost use Rattle.std.specs.Prelude.{◌≡◌};
ghost use Rattle.legs.specs.Model.{LegModel, Lawful};

// A leg of an inverter. A question alters nothing. A move is two positions, as a caller has them: a type for it would only be
// taken apart by every leg.
pub trait Leg {
    ghost model: { Self → LegModel };

    // How many positions it has.
    fn positions(&self) -> u8
        ensures { result ≡ (model self.now).count };

    // The output level of a position.
    fn level(&self, position: u8) -> i8
        ensures { result ≡ (model self.now).level position };

    // Whether it permits a move, holding included.
    fn permits(&self, from: u8, to: u8) -> bool
        ensures { result ≡ (model self.now).permits from to };

    // The position that it rests in.
    fn rest(&self) -> u8
        ensures { result ≡ (model self.now).rest };

    ghost lawful: { (leg : Self) → Lawful (model leg) };
}
