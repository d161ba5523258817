// Flavors and their metric.
ghost use Rattle.std.specs.Prelude.{◌≡◌};
ghost use Rattle.masks.specs.Flavor.{metric_of, metric_value, null_flavor, added_dims};

#[derive(Clone, Copy, PartialEq, Eq, Debug)]
pub enum Flavor {
    Vanilla,
    Projective,
    Cl(u8, u8, u8),
}

// What a basis vector squares to: -1, 0 or 1.
#[derive(Clone, Copy, PartialEq, Eq, Debug)]
pub enum Metric {
    Minus = -1,
    Zero = 0,
    Plus = 1,
}

fn metric_cl(n: u8, z: u8, index: u8) -> Metric
    ensures { metric_value result ≡ metric_of (Flavor.Cl 0 n z) index }
{
    if index < z {
        return Metric::Zero;
    }
    if index - z < n {
        return Metric::Minus;
    }
    Metric::Plus
}

fn metric_projective(index: u8) -> Metric
    ensures { metric_value result ≡ metric_of Flavor.Projective index }
{
    if index == 0 {
        return Metric::Zero;
    }
    Metric::Plus
}

// `Flavor::NULL`, with a contract that callers can cite: a constant has none.
pub fn null_flavor() -> Flavor
    ensures { result ≡ null_flavor }
{
    Flavor::NULL
}

impl Flavor {
    // The flavor in which every basis vector squares to 0.
    pub const NULL: Flavor = Flavor::Cl(0, 0, 255);

    // What the basis vector of an index squares to.
    pub fn metric(self, index: u8) -> Metric
        ensures { metric_value result ≡ metric_of self index }
    {
        match self {
            Flavor::Vanilla => Metric::Plus,
            Flavor::Projective => metric_projective(index),
            Flavor::Cl(_, n, z) => metric_cl(n, z, index),
        }
    }

    // The dimensions that the flavor adds to those that are stated.
    pub fn added_dims(self) -> u8
        ensures { result ≡ added_dims self }
    {
        match self {
            Flavor::Vanilla => 0,
            Flavor::Projective => 1,
            Flavor::Cl(_, _, _) => 0,
        }
    }
}
