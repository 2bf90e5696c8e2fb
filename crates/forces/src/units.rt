// The units that forces are reckoned in.
ghost use Rattle.std.specs.Prelude.{◌≡◌};
ghost use Rattle.forces.specs.Cases.{um, mn};

const UM_IN_TENTH: u64 = 100;

const MN_IN_NEWTON: u64 = 1_000;

// A length in tenths of a millimetre, in µm.
pub fn um(tenths: u32) -> u64
    ensures { result ≡ um tenths }
{
    UM_IN_TENTH * u64::from(tenths)
}

// A load in N, in mN.
pub fn mn(newtons: u32) -> u64
    ensures { result ≡ mn newtons }
{
    MN_IN_NEWTON * u64::from(newtons)
}
