//! The words that a scorer can ask `help` about.

ghost use Rattle.std.specs.Prelude.{◌≡◌};
ghost use Rattle.screen.specs.Help as texts;
ghost use Rattle.screen.specs.Words as words;

/// A word that `help` explains.
#[derive(Clone, Copy)]
pub enum Topic {
    Innings,
    In,
    Ball,
    Gone,
    Over,
    Penalty,
    Swap,
    End,
    Close,
    Void,
    Fix,
    Late,
    Again,
    Undo,
    Listing,
    Score,
    Card,
    Players,
    Bowlers,
    Who,
    Plan,
    Quit,
    /// Short lines, by `help short`.
    Short,
}

/// The text of `help`.
pub const HELP: &str = "\
innings S       S: home away
in n            n: 1 to 11
ball b K r [short s] [B] [dead] [out H W f [crossed]]
  K: bat bye leg wide nb nbbye nbleg    B: four six overthrow
  H: bowled caught lbw stumped hitwicket hittwice obstructing runout
  W: striker other    f: 0 none, 12 a substitute
gone L n        L: timedout retiredout retiredhurt runout
over            ends the over; over n [S i]: the entries of the n-th one
penalty S x y   by Law x.y
swap
end C           C: allout nobatter declared forfeited overs
close, void     the match is over; no entry, where one is struck out
fix p E         puts E, any line above, in place of entry p, or of ball 9.2
late p E        adds E, any line above, after entry p
again [E]       E, or what you wrote before, where you two differ
undo            takes back the line held last; none held: voids the last entry
list [n], a b   the last n entries (12 by default); those at places a to b
score, card [n] this over and the total; both cards of this innings or the n-th
players, who    both sides; who is still to bat; an empty line: where you are
bowlers         who may bowl the next ball
plan E, E ..    how to enter fix and late lines that are legal only together
help [word]     this, or more on one of these words; short: short lines
quit, exit      ends the desk; the same command resumes
";

/// The text of `help short`.
const HELP_SHORT: &str = "\
A delivery:  [B:] [RUNS] [OPTIONS] [OUT]   at least one of the last three
B: the bowler, as 10: or usher:   Left out: that of this over's last ball, so
   the first ball of each over names its bowler.
RUNS: letters and a figure with no space, as 1 or lb4
   none bat       .0 0
   b    bye       1  1
   lb   leg       2  2
   wd   wide      3  3
   nb   nb        4  0 four
   nbb  nbbye     5  5
   nblb nbleg     6  0 six
   wd is wide 0, and nb is nb 0.   nb 4 is four all run, and nb4 a four.
   K r stands as in a full line: bat 4 is four all run.   Left out: bat 0
   Also wide, no ball, dot, four, six, 1b to 4b, 1lb to 4lb, 1wd, 1nb, lb 1
OPTIONS: short s, overthrow, dead
OUT: [out] H [W] [f] [crossed]   H also c, ct, st, ro, run out, hit wicket, c&b
   W left out is striker, never for runout and obstructing
   f left out is 0; it is a number, a name or sub
/  is over.
Names, in any case, for n, b, B: and f: the whole name, the last word of one
   player's name, or how a word in the name of one player begins.
fix p, late p and again: short lines may follow them, too.
";

/// The text of `help ball`.
const HELP_BALL: &str = "\
ball b K r [short s] [B] [dead] [out H W f [crossed]]: a delivery of bowler b
  ball 10 bat 0 out caught striker 4
";

/// The text of `help undo`.
const HELP_UNDO: &str = "\
undo: takes back the line held last; none held: fix p void of the last entry
  undo
";

/// The text of `help plan`.
const HELP_PLAN: &str = "\
plan E, E ..: the lines to enter, in order, to make these corrections
  plan fix 3 2, fix 4 1
plan bowler n b: the same, where b bowled over n of the latest innings
  plan bowler 8 usher
";

/// Returns the topic of a word that begins an entry's line.
fn line_topic(word: &str) -> Option<Topic>
    ensures { result ≡ words.line_topic word.now }
{
    match word {
        "innings" => Some(Topic::Innings),
        "in" => Some(Topic::In),
        "ball" => Some(Topic::Ball),
        "gone" => Some(Topic::Gone),
        "over" => Some(Topic::Over),
        "penalty" => Some(Topic::Penalty),
        "swap" => Some(Topic::Swap),
        "end" => Some(Topic::End),
        "close" => Some(Topic::Close),
        "void" => Some(Topic::Void),
        "fix" => Some(Topic::Fix),
        "late" => Some(Topic::Late),
        "again" => Some(Topic::Again),
        _ => None,
    }
}

/// Returns the topic of one of a desk's own words, or of `short`.
fn desk_topic(word: &str) -> Option<Topic>
    ensures { result ≡ words.desk_topic word.now }
{
    match word {
        "undo" => Some(Topic::Undo),
        "list" => Some(Topic::Listing),
        "score" => Some(Topic::Score),
        "card" => Some(Topic::Card),
        "players" => Some(Topic::Players),
        "bowlers" => Some(Topic::Bowlers),
        "who" => Some(Topic::Who),
        "plan" => Some(Topic::Plan),
        "quit" => Some(Topic::Quit),
        "short" => Some(Topic::Short),
        _ => None,
    }
}

/// Returns the topic that a word names, if `help` explains it.
pub fn topic_of(word: &str) -> Option<Topic>
    ensures { result ≡ words.topic_of word.now }
{
    line_topic(word).or(desk_topic(word))
}

/// Returns the help text of a topic.
pub fn help_on(topic: Topic) -> &'static str
    ensures { result.now ≡ texts.help_on topic }
{
    match topic {
        Topic::Innings => "innings S: an innings of side S begins, home or away\n  innings home\n",
        Topic::In => "in n: player n of the batting side comes in, by number or name\n  in 3\n",
        Topic::Ball => HELP_BALL,
        Topic::Gone => "gone L n: batter n leaves between deliveries\n  gone retiredhurt 3\n",
        Topic::Over =>
            "over: the umpire calls over; over n [S i]: the entries of over n\n  over 9 home 1\n",
        Topic::Penalty => {
            "penalty S x y: five penalty runs to side S, by Law x.y\n  penalty away 41 7\n"
        }
        Topic::Swap => "swap: the batters change ends\n  swap\n",
        Topic::End => "end C: the innings ends, by this cause\n  end declared\n",
        Topic::Close => "close: closes the match; corrections are still taken\n  close\n",
        Topic::Void =>
            "void: no entry; fix p void strikes out the entry at place p\n  fix 12 void\n",
        Topic::Fix =>
            "fix p E: puts E in place of the entry at place p, or of the ball 9.2\n  fix 12 ball 10 bat 2\n",
        Topic::Late => "late p E: adds E, which was left out, after place p\n  late 12 in 5\n",
        Topic::Again => {
            "again [E]: where you two differ, writes E, or what you wrote before\n  again ball 10 bat 2\n"
        }
        Topic::Undo => HELP_UNDO,
        Topic::Listing => {
            "list [n], list a b: the last n entries, or those of the places a to b\n  list 45 70\n"
        }
        Topic::Score => {
            "score: total, extras, both batters, the bowler and his last over\n  score\n"
        }
        Topic::Card => "card [n]: both cards of the innings begun last, or of the n-th\n  card 1\n",
        Topic::Players => "players: both sides, by number and name\n  players\n",
        Topic::Bowlers => {
            "bowlers: who may bowl the next ball, and how many overs each has left\n  bowlers\n"
        }
        Topic::Who => "who: who of the batting side is neither out nor in\n  who\n",
        Topic::Plan => HELP_PLAN,
        Topic::Quit => "quit: ends the desk; the same command resumes\n  quit\n",
        Topic::Short => HELP_SHORT,
    }
}
