use hp_base::Stats;
use std::fmt;

// The statistics of a heap as the report writes them.
#[derive(Drop)]
pub struct StatsText(pub Stats);

impl fmt::Display for StatsText {
    ghost use Rattle.std.specs.Prelude.{Some};
    ghost use Rattle.hp_script.specs.Answers.{stats_text};

    ghost output = { λ shown. Some (stats_text shown.0) };

    fn fmt<W: fmt::Write>(&self, f: &mut fmt::Formatter<W>) -> fmt::Result {
        let bytes = BytesText(self.0);
        let elements = ElementsText(self.0);
        write!(f, "{bytes}{elements}")
    }
}

// The numbers of bytes.
#[derive(Drop)]
struct BytesText(Stats);

impl fmt::Display for BytesText {
    ghost use Rattle.std.specs.Prelude.{Some};
    ghost use Rattle.hp_script.specs.Answers.{bytes_text};

    ghost output = { λ shown. Some (bytes_text shown.0) };

    fn fmt<W: fmt::Write>(&self, f: &mut fmt::Formatter<W>) -> fmt::Result {
        let Stats {
            total,
            free,
            used,
            greatest,
            ..
        } = self.0;
        write!(
            f,
            "total {total} free {free} used {used} greatest {greatest}"
        )
    }
}

// The numbers of elements.
#[derive(Drop)]
struct ElementsText(Stats);

impl fmt::Display for ElementsText {
    ghost use Rattle.std.specs.Prelude.{Some};
    ghost use Rattle.hp_script.specs.Answers.{elements_text};

    ghost output = { λ shown. Some (elements_text shown.0) };

    fn fmt<W: fmt::Write>(&self, f: &mut fmt::Formatter<W>) -> fmt::Result {
        let Stats { busy, frees, .. } = self.0;
        write!(f, " busy {busy} frees {frees}")
    }
}
