//! How the limits fit each other: the contract of a function that does nothing.
ghost use Rattle.std.specs.Prelude.{◌≡◌, ◌+◌, ◌-◌, ◌*◌, ◌^◌, ◌<◌, ◌≤◌};
ghost use Rattle.crx_base.specs.declared.limits.TheConstants.{CELL_WIDTH, CLOCK_DECIMALS, CLOCK_WIDTH, DIGITS_LIMIT, HEAD_WIDTH, LINE_LIMIT, NAME_WIDTH, OBSERVATION_DECIMALS, OBSERVATION_WIDTH, ORDER_LIMIT, SATELLITES_LIMIT, TYPES_LIMIT, WRITTEN_ORDER};

/// Does nothing at run time: its contract proves how the limits fit each other.
///
/// - `printed`: a satellite line with a cell for each type and an epoch line with its clock fit into a line.
/// - `compact`: so do their compact forms: for each type a code of at most 15 characters, a blank, and two
///   indicators; and the epoch line with the identifiers of all satellites.
/// - `counts`: counts of types and satellites have at most three digits, an order has one, and an arc is
///   written with an order that can be read.
/// - `cells`: a cell is an observation and two indicators, and a field has room for a minus, a digit and the
///   point.
/// - `sums`: a difference of order n of values below 10^m is below 2^n times 10^m. So each difference that an
///   arc of any order keeps fits into 64 bits, and each one that is written has few enough digits to be read,
///   as each number that is read has.
pub fn limits_fit()
    ensures printed { (NAME_WIDTH + CELL_WIDTH * TYPES_LIMIT ≤ LINE_LIMIT)
        × (HEAD_WIDTH + CLOCK_WIDTH ≤ LINE_LIMIT) }
    ensures compact { (18 * TYPES_LIMIT ≤ LINE_LIMIT)
        × (HEAD_WIDTH + NAME_WIDTH * SATELLITES_LIMIT ≤ LINE_LIMIT) }
    ensures counts { (TYPES_LIMIT < 10 ^ 3)
        × (SATELLITES_LIMIT < 10 ^ 3) × (ORDER_LIMIT < 10) × (WRITTEN_ORDER ≤ ORDER_LIMIT) }
    ensures cells { (CELL_WIDTH ≡ OBSERVATION_WIDTH + 2) × (OBSERVATION_DECIMALS + 3 ≤ OBSERVATION_WIDTH)
        × (CLOCK_DECIMALS + 3 ≤ CLOCK_WIDTH) }
    ensures sums { (OBSERVATION_WIDTH ≤ CLOCK_WIDTH) × (2 ^ ORDER_LIMIT * 10 ^ (CLOCK_WIDTH - 1) < 2 ^ 63)
        × (2 ^ WRITTEN_ORDER * 10 ^ (CLOCK_WIDTH - 1) < 10 ^ DIGITS_LIMIT) × (10 ^ DIGITS_LIMIT < 2 ^ 63) }
{}
