//! Compressed samples: expand a code of 8 bits, compress a sample of 16.
//! `expand` reads a table of all 256 values, whose rule is proved over the whole table. `compress`
//! has the exponent from the processor's count of leading zeros, and as it is compiled it takes the
//! same instructions for every sample, which `make -C host test` holds it to.
#![tactic(auto)]

ghost use Rattle.std.specs.Prelude.{◌≡◌, ◌-◌, ◌<◌, max};
ghost use Rattle.std.specs.Int.Signed.{mag};
ghost use Rattle.numbers.specs.Numbers.{floor_div, word};
ghost use Rattle.codes.specs.Codes.{value_of, Expands, Compressed};
ghost use Rattle.codes.specs.Exponent.{Exponent, spacing};

// The value of each code, from code 0 up. It lies in the program's data and is read where it lies:
// a `const` would be built anew at each look.
static VALUES: [i16; 256] = [
    0, 16, 32, 48, 64, 80, 96, 112, 128, 144, 160, 176, 192, 208, 224, 240, -256, -240, -224, -208,
    -192, -176, -160, -144, -128, -112, -96, -80, -64, -48, -32, -16, -512, -496, -480, -464, -448,
    -432, -416, -400, -384, -368, -352, -336, -320, -304, -288, -272, 256, 272, 288, 304, 320, 336,
    352, 368, 384, 400, 416, 432, 448, 464, 480, 496, -1024, -992, -960, -928, -896, -864, -832,
    -800, -768, -736, -704, -672, -640, -608, -576, -544, 512, 544, 576, 608, 640, 672, 704, 736,
    768, 800, 832, 864, 896, 928, 960, 992, -2048, -1984, -1920, -1856, -1792, -1728, -1664, -1600,
    -1536, -1472, -1408, -1344, -1280, -1216, -1152, -1088, 1024, 1088, 1152, 1216, 1280, 1344,
    1408, 1472, 1536, 1600, 1664, 1728, 1792, 1856, 1920, 1984, -4096, -3968, -3840, -3712, -3584,
    -3456, -3328, -3200, -3072, -2944, -2816, -2688, -2560, -2432, -2304, -2176, 2048, 2176, 2304,
    2432, 2560, 2688, 2816, 2944, 3072, 3200, 3328, 3456, 3584, 3712, 3840, 3968, -8192, -7936,
    -7680, -7424, -7168, -6912, -6656, -6400, -6144, -5888, -5632, -5376, -5120, -4864, -4608,
    -4352, 4096, 4352, 4608, 4864, 5120, 5376, 5632, 5888, 6144, 6400, 6656, 6912, 7168, 7424,
    7680, 7936, -16384, -15872, -15360, -14848, -14336, -13824, -13312, -12800, -12288, -11776,
    -11264, -10752, -10240, -9728, -9216, -8704, 8192, 8704, 9216, 9728, 10240, 10752, 11264,
    11776, 12288, 12800, 13312, 13824, 14336, 14848, 15360, 15872, -32768, -31744, -30720, -29696,
    -28672, -27648, -26624, -25600, -24576, -23552, -22528, -21504, -20480, -19456, -18432, -17408,
    16384, 17408, 18432, 19456, 20480, 21504, 22528, 23552, 24576, 25600, 26624, 27648, 28672,
    29696, 30720, 31744,
];

/// The table of all values, from code 0 up.
pub fn table() -> &'static [i16; 256]
    ensures { Expands result.now }
{
    &VALUES
}

/// The value of a code.
pub fn expand(code: u8) -> i16
    ensures { result ≡ value_of code }
{
    table()[usize::from(code)]
}

/// The code with the greatest value that is not above the sample.
pub fn compress(sample: i16) -> u8
    ensures { Compressed sample result }
{
    let e = exponent(magnitude(sample));
    let m = mantissa(sample, e);
    (32 * e + m) as u8
}

// The sample, or the complement of a negative one: `s >> 31` has no bit set, or every bit, and `^`
// with every bit is the complement. (`unsigned_abs` is another number: that of -1 is 1, and its
// complement 0.)
fn magnitude(sample: i16) -> u32
    ensures { (result ≡ mag sample) × (result < 32768) }
{
    let s = i32::from(sample);
    (s ^ (s >> 31)) as u32
}

// The exponent of a sample of magnitude t: how many of the bits 8 to 14 it takes. The bits below do
// not matter to it; they are set, so that no more than 24 zeros are counted and no comparison is
// needed.
fn exponent(t: u32) -> u32
    requires { t < 32768 }
    ensures { Exponent t result }
{
    24 - (t | 255).leading_zeros()
}

// The mantissa of a sample of exponent e: the leading bits that equal its sign are shifted out, at
// most 23 of the 32 that it has as an `i32`, and the five then on top are it.
fn mantissa(sample: i16, e: u32) -> u32
    requires { e < 8 }
    ensures { (result ≡ word 5 (floor_div sample (spacing e))) × (result < 32) }
{
    numbers::word_of(5, i32::from(sample) << shift(e) >> 27)
}

// How many bits are shifted out: 24 - e, and at exponent 0 as many as at 1.
fn shift(e: u32) -> u32
    requires { e < 8 }
    ensures { result ≡ 24 - max 1 e }
{
    if e == 0 { 23 } else { 24 - e }
}
