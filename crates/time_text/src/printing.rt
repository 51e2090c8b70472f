ghost use Rattle.std.specs.Prelude.{◌≡◌, ◌+◌, ◌<◌, ◌≤◌, ◌/◌, ◌%◌, pos, length};
ghost use Rattle.std.specs.Str.{IsAscii};
ghost use Rattle.time_text.specs.Instant.{IsInstant};
ghost use Rattle.time_text.specs.Printed as Printed;
ghost use Rattle.time_text.specs.Day.{year_of, month_of, day_of_month};

use jiff_core::civil::Date;

/// Prints an instant as `YYYY-MM-DDThh:mm:ss.mmmZ`, in UTC.
#[tactic(auto, unfolding(crate::specs::Printed::instant_text))]
pub fn print_instant(t: i64) -> [u8; 24]
    requires { IsInstant t }
    ensures text { result ≡ Printed.instant_text t }
    ensures ascii { IsAscii result }
{
    let millis = t as u64;
    let [y1, y2, y3, y4, dash1, m1, m2, dash2, d1, d2] = date_text(millis / 86_400_000);
    let [h1, h2, colon1, n1, n2, colon2, s1, s2, point, f1, f2, f3] = clock_text(
        millis % 86_400_000,
    );
    [
        y1, y2, y3, y4, dash1, m1, m2, dash2, d1, d2, b'T', h1, h2, colon1, n1, n2, colon2, s1, s2,
        point, f1, f2, f3, b'Z',
    ]
}

/// Prints the day of an instant as `yyyy.MM.dd`, in UTC.
#[tactic(auto, unfolding(crate::specs::Printed::day_text))]
pub fn print_day(t: i64) -> [u8; 10]
    requires { IsInstant t }
    ensures text { result ≡ Printed.day_text t }
    ensures ascii { IsAscii result }
{
    let (year, month, day) = civil_day(t as u64 / 86_400_000);
    let [y1, y2] = two_digits(year / 100);
    let [y3, y4] = two_digits(year % 100);
    let [m1, m2] = two_digits(month);
    let [d1, d2] = two_digits(day);
    [y1, y2, y3, y4, b'.', m1, m2, b'.', d1, d2]
}

/// What `print_day` printed, as a text.
pub fn day_str(printed: &[u8; 10]) -> &str
    requires { IsAscii printed.now }
    ensures { result.now ≡ printed.now }
{
    str::from_utf8(printed).unwrap()
}

/// What `print_instant` printed, as a text.
pub fn printed_str(printed: &[u8; 24]) -> &str
    requires { IsAscii printed.now }
    ensures { result.now ≡ printed.now }
{
    str::from_utf8(printed).unwrap()
}

#[tactic(auto, unfolding(crate::specs::Printed::date_text))]
fn date_text(day: u64) -> [u8; 10]
    requires { day ≤ 2_932_896 }
    ensures { result ≡ Printed.date_text day }
{
    let (year, month, day) = civil_day(day);
    let [y1, y2] = two_digits(year / 100);
    let [y3, y4] = two_digits(year % 100);
    let [m1, m2] = two_digits(month);
    let [d1, d2] = two_digits(day);
    [y1, y2, y3, y4, b'-', m1, m2, b'-', d1, d2]
}

fn civil_day(day: u64) -> (u64, u64, u64)
    requires { day ≤ 2_932_896 }
    ensures year { result.0 ≡ year_of day }
    ensures month { result.1 ≡ month_of day }
    ensures day { result.2 ≡ day_of_month day }
    ensures year_digits { result.0 < 10_000 }
    ensures month_digits { result.1 < 100 }
    ensures day_digits { result.2 < 100 }
{
    let date = Date::from_unix_epoch_day(day as i64).unwrap();
    (date.year as u64, u64::from(date.month), u64::from(date.day))
}

#[tactic(auto, unfolding(crate::specs::Printed::clock_text))]
fn clock_text(millis: u64) -> [u8; 12]
    requires { millis < 86_400_000 }
    ensures { result ≡ Printed.clock_text millis }
{
    let [h1, h2] = two_digits(millis / 3_600_000);
    let [m1, m2] = two_digits(millis / 60_000 % 60);
    let [s1, s2] = two_digits(millis / 1_000 % 60);
    let [f2, f3] = two_digits(millis % 1_000 % 100);
    [
        h1,
        h2,
        b':',
        m1,
        m2,
        b':',
        s1,
        s2,
        b'.',
        digit(millis % 1_000 / 100),
        f2,
        f3,
    ]
}

fn two_digits(n: u64) -> [u8; 2]
    requires { n < 100 }
    ensures { result ≡ Printed.two_digits n }
{
    [digit(n / 10), digit(n % 10)]
}

fn digit(n: u64) -> u8
    requires { n < 10 }
    ensures { result ≡ 48 + n }
{
    b'0' + n as u8
}
