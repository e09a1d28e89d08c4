//! Words, documents and the answers to them, worked by hand.

use yds_model::Status;

/// The usage line.
pub const USAGE: &str =
    "usage: yds_cli plan | round | avr --grid G | oa --grid G | check | audit [--points] | report [--json] | trial SEED JOBS | expand | admit TOP | curve | compare --grid G\n";

/// The words with spaces between them, the document, the status and the whole answer.
pub static ROWS: [(&str, &str, Status, &str); 83] = [
    (
        "audit",
        "job a 0 4 4\njob b 0 2 4\nslot b 0 2 4\nslot a 2 4 4\n# refuse c from 0 to 4 work 9 top 2\n",
        Status::Done,
        "feasible\n",
    ),
    (
        "audit",
        "job b 0 2 0\njob c 0 2 1\nslot c 0 2 1\n# refuse a from 0 to 2 work 3 top 1\n",
        Status::Done,
        "feasible\n",
    ),
    (
        "audit",
        "job a 0 4 2\nslot a 2 2 2\n",
        Status::No,
        "backward slot 1 a 2 2\n",
    ),
    (
        "audit",
        "job a 0 4 4\nticks 10\nrun a 20 10 5\n",
        Status::No,
        "backward slot 1 a 2 1\n",
    ),
    (
        "audit",
        "job a 1 4 2\nslot a 0 2 2\n",
        Status::No,
        "early slot 1 a 0 release 1\n",
    ),
    ("audit", "", Status::Done, "feasible\n"),
    (
        "audit",
        "job a 0 4 4\nslot a 0 1 1000000000000\n",
        Status::No,
        "work a given 1000000000000 wanted 4\n",
    ),
    (
        "audit",
        "job a 0 4 2\nslot a 3 5 2\n",
        Status::No,
        "late slot 1 a 5 deadline 4\n",
    ),
    (
        "audit",
        "job a 0 3 2\njob b 1 2 1\nslot a 0 1 0+4/6\nslot b 1 1+6/7 1\nslot a 1+6/7 2 0+1/6\nslot a 2 3 1+1/6\ngrid 6 0\n",
        Status::Done,
        "feasible\n",
    ),
    (
        "audit",
        "job a 0 4 2\njob b 0 4 2\nslot a 0 2 2\nslot b 1 3 2\n",
        Status::No,
        "overlap slot 2 b 1 previous 2\n",
    ),
    (
        "audit",
        "job a 0 4 8\nslot a 0 1+1/1152921504606846975 4\nslot a 1+1/1152921504606846976 2 4\n",
        Status::No,
        "overlap slot 2 a 1+1/1152921504606846976 previous 1+1/1152921504606846975\n",
    ),
    (
        "audit --points",
        "# cpu0, governor trace\njob decode 0 33 26100\njob audio 5 20 3000\npoint 0 30\npoint 600 200\npoint 1200 700\npoint 1800 1600\nticks 1000\nrun decode 0 5000 1800\nrun audio 5000 10000 600\nrun decode 10000 19500 1800\n",
        Status::Done,
        "feasible\n",
    ),
    (
        "audit --points",
        "job a 0 4 8\nslot a 0 4 8\nlevel 8 4\npiece 0 4\nmember a\n",
        Status::Refused,
        "refused no-table\n",
    ),
    (
        "audit --points",
        "job a 0 4 8\nslot a 0 4 8\nlevel 8 4\npiece 0 4\nmember a\npoint 0 0\npoint 1 1\npoint 4 9\n",
        Status::No,
        "off-point slot 1 a 0 4 8\n",
    ),
    (
        "audit",
        "job a 0 4 8\nslot a 0 0+1/1152921504606846976 8\n",
        Status::Done,
        "feasible\n",
    ),
    (
        "audit",
        "job a 0 10 10\njob b 4 6 6\nslot a 0 4 5\nslot b 4 6 5\nslot a 6 10 5\n",
        Status::No,
        "work b given 5 wanted 6\n",
    ),
    (
        "audit",
        "job a 0 10 10\njob b 4 6 6\nslot a 0 4 5\nslot b 4 6 5\nslot a 6 10 5\nlevel 6 2\npiece 4 6\nmember b\nlevel 10 8\npiece 0 4\npiece 6 10\nmember a\n",
        Status::No,
        "work b given 5 wanted 6\n",
    ),
    (
        "audit",
        "job a 0 4 4\nslot a 0 4 3+1152921504606846975/1152921504606846976\n",
        Status::No,
        "work a given 3+1152921504606846975/1152921504606846976 wanted 4\n",
    ),
    ("check", "", Status::Done, "accepted\n"),
    (
        "check",
        "job a 0 2 4\njob b 5 7 4\nslot a 0 2 4\nslot b 5 7 4\nlevel 4 2\npiece 0 2\nmember a\nlevel 4 2\npiece 5 7\nmember b\n",
        Status::Done,
        "accepted\n",
    ),
    (
        "check",
        "job a 0 4 4\nslot a 0 4 4\n",
        Status::No,
        "K3 job a\n",
    ),
    (
        "check",
        "job a 0 12 4\njob b 2 10 8\njob c 4 6 6\nslot a 0 2 2\nslot b 2 4 2+2/3\nslot c 4 6 6\nslot b 6 10 5+1/3\nslot a 10 12 2\nlevel 6 2\npiece 4 6\nmember c\nlevel 4 4\npiece 0 2\npiece 10 12\nmember a\nlevel 8 6\npiece 2 4\npiece 6 10\nmember b\n",
        Status::No,
        "K5 level 3\n",
    ),
    (
        "check",
        "job a 0 4 4\nslot a 0 4 4\nlevel 4 4\nmember a\n",
        Status::No,
        "K2 level 1\n",
    ),
    (
        "check",
        "job a 0 4 4\nslot a 0 4 4\nlevel 4 4\npiece 0 4\nmember a\nmember a\n",
        Status::No,
        "K3 job a\n",
    ),
    (
        "check",
        "job a 0 10 10\njob b 4 6 6\nslot a 0 4 5\nslot b 4 6 6\nslot a 6 10 5\nlevel 6 2\npiece 4 6\nmember a\nlevel 10 8\npiece 0 4\npiece 6 10\nmember b\n",
        Status::No,
        "K4 level 1\n",
    ),
    (
        "check",
        "job a 0 4 4\njob b 0 4 4\nslot a 0 2 4\nslot b 2 4 4\nlevel 4 2\npiece 0 2\nmember a\nlevel 4 2\npiece 0 2\nmember b\n",
        Status::No,
        "K2 level 2\n",
    ),
    (
        "check",
        "job a 0 4 4\nslot a 0 4 4\nlevel 4 4\npiece 3 3\nmember a\n",
        Status::No,
        "K2 level 1\n",
    ),
    (
        "check",
        "job a 0 4 4\nslot a 0 4 4\nlevel 4 4\npiece 0 3\npiece 2 4\nmember a\n",
        Status::No,
        "K2 level 1\n",
    ),
    (
        "check",
        "job a 0 3 2\njob b 0 3 5\nslot a 0 0+6/7 2\nslot b 0+6/7 3 5\nlevel 7 3\npiece 0 3\nmember a\nmember b\n",
        Status::Done,
        "accepted\n",
    ),
    (
        "check",
        "job a 0 2 4\njob b 5 7 4\nslot a 0 2 4\nslot b 5 7 4\nlevel 8 4\npiece 0 2\npiece 5 7\nmember a\nmember b\n",
        Status::Done,
        "accepted\n",
    ),
    (
        "check",
        "job a 0 2 2\njob b 2 4 2\nslot a 0 2 2\nslot b 2 4 2\nlevel 4 4\npiece 0 4\nmember a\nmember b\n",
        Status::Done,
        "accepted\n",
    ),
    (
        "check",
        "job a 0 4 8\nslot a 0 4 8\nlevel 8 4\npiece 0 4\nmember a\n",
        Status::Done,
        "accepted\n",
    ),
    (
        "check",
        "job a 0 10 10\njob b 4 6 6\nslot a 0 4 5\nslot b 4 6 6\nslot a 6 10 5\nlevel 6 2\npiece 4 6\nmember b\nlevel 10 8\npiece 0 4\npiece 6 10\nmember a\n",
        Status::Done,
        "accepted\n",
    ),
    (
        "check",
        "job a 0 4 4\nslot a 0 2 3\nslot a 2 4 1\nlevel 4 4\npiece 0 4\nmember a\n",
        Status::No,
        "K7 slot 1\n",
    ),
    (
        "check",
        "job a 0 12 4\njob b 2 10 8\njob c 4 6 6\nslot a 0 2 2\nslot b 2 4 2+2/3\nslot c 4 6 6\nslot b 6 10 5+1/3\nslot a 10 12 2\nlevel 6 2\npiece 4 6\nmember c\nlevel 8 6\npiece 2 4\npiece 6 10\nmember b\nlevel 4 4\npiece 0 2\npiece 10 12\nmember a\n",
        Status::Done,
        "accepted\n",
    ),
    (
        "check",
        "job a 0 4 4\nslot a 0 2 4\nlevel 4 2\npiece 0 2\nmember a\n",
        Status::No,
        "K6 job a\n",
    ),
    (
        "check",
        "job a 0 4 4\njob b 2 6 0\nslot a 0 2 2\nslot a 2 4 2\nlevel 4 4\npiece 0 4\nmember a\nmember b\n",
        Status::No,
        "K6 job b\n",
    ),
    (
        "check",
        "job a 0 4 4\njob b 2 6 0\nslot a 0 2 2\nslot a 2 4 2\nlevel 4 4\npiece 0 4\nmember a\n",
        Status::Done,
        "accepted\n",
    ),
    (
        "plan",
        "job a 0 4 1",
        Status::Done,
        "job a 0 4 1\nslot a 0 4 1\nlevel 1 4\npiece 0 4\nmember a\n",
    ),
    (
        "plan",
        "job a 999999 1000001 1\n",
        Status::Done,
        "job a 999999 1000001 1\nslot a 999999 1000001 1\nlevel 1 2\npiece 999999 1000001\nmember a\n",
    ),
    ("plan", "", Status::Done, ""),
    (
        "plan",
        "job a 0 3 2\njob b 0 3 5\n",
        Status::Done,
        "job a 0 3 2\njob b 0 3 5\nslot a 0 0+6/7 2\nslot b 0+6/7 3 5\nlevel 7 3\npiece 0 3\nmember a\nmember b\n",
    ),
    (
        "plan",
        "job a 0 2 4\njob b 5 7 4\n",
        Status::Done,
        "job a 0 2 4\njob b 5 7 4\nslot a 0 2 4\nslot b 5 7 4\nlevel 8 4\npiece 0 2\npiece 5 7\nmember a\nmember b\n",
    ),
    (
        "plan",
        "job a 0 2 2\njob b 2 4 2\n",
        Status::Done,
        "job a 0 2 2\njob b 2 4 2\nslot a 0 2 2\nslot b 2 4 2\nlevel 4 4\npiece 0 4\nmember a\nmember b\n",
    ),
    (
        "plan",
        "job a.0 0 4 2\njob a.1 4 8 2\njob a.2 8 12 2\njob b.0 0 6 3\njob b.1 6 12 3\n# one level 12 12\n",
        Status::Done,
        "job a.0 0 4 2\njob a.1 4 8 2\njob a.2 8 12 2\njob b.0 0 6 3\njob b.1 6 12 3\nslot a.0 0 2 2\nslot b.0 2 4 2\nslot b.0 4 5 1\nslot a.1 5 6 1\nslot a.1 6 7 1\nslot b.1 7 8 1\nslot a.2 8 10 2\nslot b.1 10 12 2\nlevel 12 12\npiece 0 12\nmember a.0\nmember a.1\nmember a.2\nmember b.0\nmember b.1\n",
    ),
    (
        "plan",
        "# cpu0, governor trace\njob decode 0 33 26100\njob audio 5 20 3000\npoint 0 30\npoint 600 200\npoint 1200 700\npoint 1800 1600\nticks 1000\nrun decode 0 5000 1800\nrun audio 5000 10000 600\nrun decode 10000 19500 1800\n",
        Status::Done,
        "job decode 0 33 26100\njob audio 5 20 3000\npoint 0 30\npoint 600 200\npoint 1200 700\npoint 1800 1600\nslot decode 0 5 4409+1/11\nslot audio 5 8+3900/9700 3000\nslot decode 8+3900/9700 20 10227+3/11\nslot decode 20 33 11463+7/11\nlevel 29100 33\npiece 0 33\nmember decode\nmember audio\n",
    ),
    (
        "plan",
        "job a 999999 1000000 1000000\n",
        Status::Done,
        "job a 999999 1000000 1000000\nslot a 999999 1000000 1000000\nlevel 1000000 1\npiece 999999 1000000\nmember a\n",
    ),
    (
        "plan",
        "job a 0 1000000000 1000000\n",
        Status::Done,
        "job a 0 1000000000 1000000\nslot a 0 1000000000 1000000\nlevel 1000000 1000000000\npiece 0 1000000000\nmember a\n",
    ),
    (
        "plan",
        "job a 0 4 8\n",
        Status::Done,
        "job a 0 4 8\nslot a 0 4 8\nlevel 8 4\npiece 0 4\nmember a\n",
    ),
    ("plan", "job a 0 4 0\n", Status::Done, "job a 0 4 0\n"),
    (
        "plan",
        "point 0 0\npoint 1 3\npoint 2 4\n",
        Status::Done,
        "point 0 0\npoint 1 3\npoint 2 4\n",
    ),
    (
        "plan",
        "point 0 0\npoint 3989 1\npoint 4000 2\n",
        Status::Done,
        "point 0 0\npoint 3989 1\npoint 4000 2\n",
    ),
    (
        "plan",
        "job a 0 12 4\njob b 2 10 8\njob c 4 6 6\n",
        Status::Done,
        "job a 0 12 4\njob b 2 10 8\njob c 4 6 6\nslot a 0 2 2\nslot b 2 4 2+2/3\nslot c 4 6 6\nslot b 6 10 5+1/3\nslot a 10 12 2\nlevel 6 2\npiece 4 6\nmember c\nlevel 8 6\npiece 2 4\npiece 6 10\nmember b\nlevel 4 4\npiece 0 2\npiece 10 12\nmember a\n",
    ),
    (
        "plan",
        "job a 0 10 10\njob b 4 6 6\n",
        Status::Done,
        "job a 0 10 10\njob b 4 6 6\nslot a 0 4 5\nslot b 4 6 6\nslot a 6 10 5\nlevel 6 2\npiece 4 6\nmember b\nlevel 10 8\npiece 0 4\npiece 6 10\nmember a\n",
    ),
    (
        "plan",
        "job a 0 4 4\njob b 2 6 0\n",
        Status::Done,
        "job a 0 4 4\njob b 2 6 0\nslot a 0 2 2\nslot a 2 4 2\nlevel 4 4\npiece 0 4\nmember a\n",
    ),
    (
        "plan",
        "job a 999999999 1000000001 1\n",
        Status::Refused,
        "refused 1 17 OutOfRange\n",
    ),
    (
        "audit",
        "job a 0 4 8\nslot a 0 0+1/1152921504606846977 8\n",
        Status::Refused,
        "refused 2 10 OutOfRange\n",
    ),
    (
        "plan",
        "job a 0 4 8\njob a 1 2 3\n",
        Status::Refused,
        "refused 2 5 DuplicateName\n",
    ),
    (
        "plan",
        "job a 4 4 1\n",
        Status::Refused,
        "refused 1 9 EmptyWindow\n",
    ),
    (
        "plan",
        "job a 0 4 8\nslot a 0+1/3 1+1/7 1\n",
        Status::Refused,
        "refused 2 14 MixedEnds\n",
    ),
    (
        "plan",
        "job a 0 4\n",
        Status::Refused,
        "refused 1 10 FieldCount\n",
    ),
    (
        "plan",
        "job a 0 4 8 9\n",
        Status::Refused,
        "refused 1 13 FieldCount\n",
    ),
    (
        "plan",
        "point 1 1\n",
        Status::Refused,
        "refused 1 7 NoIdle\n",
    ),
    (
        "plan",
        "point 0 0\npoint 803 1\npoint 1604 2\npoint 2404 3\npoint 3203 4\npoint 4000 5\n",
        Status::Refused,
        "refused 6 7 GapsTooFine\n",
    ),
    (
        "plan",
        "job a 0 04 1\n",
        Status::Refused,
        "refused 1 9 BadNumber\n",
    ),
    (
        "plan",
        "level 0 4\n",
        Status::Refused,
        "refused 1 7 OutOfRange\n",
    ),
    (
        "plan",
        "job a 0 4 8\nslot a 0 1 0+2/2\n",
        Status::Refused,
        "refused 2 12 OutOfRange\n",
    ),
    (
        "plan",
        "piece 0 4\n",
        Status::Refused,
        "refused 1 1 Misplaced\n",
    ),
    (
        "plan",
        "point 0 0\npoint 3989 1\npoint 4000 2\npoint 4001 9\n",
        Status::Refused,
        "refused 4 7 OutOfRange\n",
    ),
    (
        "plan",
        "point 0 0\npoint 0 1\n",
        Status::Refused,
        "refused 2 7 NotRising\n",
    ),
    (
        "plan",
        "run a 0 1 1\n",
        Status::Refused,
        "refused 1 1 Misplaced\n",
    ),
    (
        "audit",
        "job a 0 1000000000 1\nticks 1\nrun a 0 1000001 1000000\n",
        Status::Refused,
        "refused 3 17 OutOfRange\n",
    ),
    (
        "plan",
        "grid 1 0\ngrid 1 0\n",
        Status::Refused,
        "refused 2 1 Misplaced\n",
    ),
    (
        "plan",
        "jobs a 0 4 8\n",
        Status::Refused,
        "refused 1 1 UnknownKind\n",
    ),
    (
        "plan",
        "job a 0 4 8\nslot b 0 1 1\n",
        Status::Refused,
        "refused 2 6 UnknownName\n",
    ),
    (
        "plan",
        "job a 0 4 8\nslot a 0 1 0+1/2\nslot a 1 2 0+1/3\n",
        Status::Refused,
        "refused 3 12 MixedGrain\n",
    ),
    (
        "plan",
        "job a 0 4 8\nslot é 0 1 1\n",
        Status::Refused,
        "refused 2 6 BadName\n",
    ),
    (
        "plan",
        "point 0 0\npoint 1 0\npoint 2 0\npoint 3 0\npoint 4 0\npoint 5 0\npoint 6 0\npoint 7 0\npoint 8 0\npoint 9 0\npoint 10 0\npoint 11 0\npoint 12 0\npoint 13 0\npoint 14 0\npoint 15 0\npoint 16 0\npoint 17 0\npoint 18 0\npoint 19 0\npoint 20 0\npoint 21 0\npoint 22 0\npoint 23 0\npoint 24 0\npoint 25 0\npoint 26 0\npoint 27 0\npoint 28 0\npoint 29 0\npoint 30 0\npoint 31 0\npoint 32 0\npoint 33 0\npoint 34 0\npoint 35 0\npoint 36 0\npoint 37 0\npoint 38 0\npoint 39 0\npoint 40 0\npoint 41 0\npoint 42 0\npoint 43 0\npoint 44 0\npoint 45 0\npoint 46 0\npoint 47 0\npoint 48 0\npoint 49 0\npoint 50 0\npoint 51 0\npoint 52 0\npoint 53 0\npoint 54 0\npoint 55 0\npoint 56 0\npoint 57 0\npoint 58 0\npoint 59 0\npoint 60 0\npoint 61 0\npoint 62 0\npoint 63 0\npoint 64 0\n",
        Status::Refused,
        "refused 65 1 TooMany\n",
    ),
    ("admit 0", "job a 0 4 8\n", Status::Usage, USAGE),
    ("avr", "job a 0 4 8\n", Status::Usage, USAGE),
    ("avr --grid 0", "job a 0 4 8\n", Status::Usage, USAGE),
    ("", "job a 0 4 8\n", Status::Usage, USAGE),
    ("plan plan", "job a 0 4 8\n", Status::Usage, USAGE),
];

/// The same of reports and trials.
pub static REPORTS_AND_TRIALS: [(&str, &str, Status, &str); 8] = [
    (
        "report",
        "job a 0 12 4\njob b 2 10 8\njob c 4 6 6\n",
        Status::Done,
        "jobs 3 work 18 from 0 to 12\n    1          6          2 3\n    2          8          6 1+1/3\n    3          4          4 1\nidle 0\n",
    ),
    (
        "report",
        "",
        Status::Done,
        "jobs 0 work 0 from 0 to 0\nidle 0\n",
    ),
    (
        "trial 0 0",
        "",
        Status::Done,
        "jobs 0\nlevels 0\nslots 0\npeak none\naccepted\n",
    ),
    (
        "trial 0 1",
        "",
        Status::Done,
        "jobs 1\nlevels 1\nslots 1\npeak 53709 18257\naccepted\n",
    ),
    (
        "trial 0 2",
        "",
        Status::Done,
        "jobs 2\nlevels 2\nslots 2\npeak 53709 18257\naccepted\n",
    ),
    ("trial 0 1001", "", Status::Usage, USAGE),
    ("trial 4294967296 1", "", Status::Usage, USAGE),
    ("trial 0 01", "", Status::Usage, USAGE),
];

/// The same of curves and of reports as JSON.
pub static CURVES_AND_JSON: [(&str, &str, Status, &str); 9] = [
    (
        "curve",
        "job a 0 12 4\njob b 2 10 8\njob c 4 6 6\n",
        Status::Done,
        "break 0 18\nbreak 1 6\nbreak 1+1/3 3+1/3\nbreak 3 0\n",
    ),
    (
        "curve",
        "job a 0 2 4\njob b 6 8 1\n",
        Status::Done,
        "break 0 5\nbreak 0+1/2 3\nbreak 2 0\n",
    ),
    ("curve", "", Status::Done, "break 0 0\n"),
    ("curve all", "", Status::Usage, USAGE),
    (
        "report --json",
        "job a 0 12 4\njob b 2 10 8\njob c 4 6 6\n",
        Status::Done,
        "{\"from\":0,\"idle\":0,\"jobs\":3,\"levels\":[{\"length\":2,\"speed\":\"3\",\"work\":6},{\"length\":6,\"speed\":\"1+1/3\",\"work\":8},{\"length\":4,\"speed\":\"1\",\"work\":4}],\"to\":12,\"work\":18}\n",
    ),
    (
        "report --json",
        "job a 0 2 4\njob b 6 8 1\n",
        Status::Done,
        "{\"from\":0,\"idle\":4,\"jobs\":2,\"levels\":[{\"length\":2,\"speed\":\"2\",\"work\":4},{\"length\":2,\"speed\":\"0+1/2\",\"work\":1}],\"to\":8,\"work\":5}\n",
    ),
    (
        "report --json",
        "",
        Status::Done,
        "{\"from\":0,\"idle\":0,\"jobs\":0,\"levels\":[],\"to\":0,\"work\":0}\n",
    ),
    ("report --points", "", Status::Usage, USAGE),
    ("report --json now", "", Status::Usage, USAGE),
];

/// The same of periodic tasks, and the plan of the jobs of two.
pub static EXPANSIONS: [(&str, &str, Status, &str); 16] = [
    (
        "expand",
        "horizon 12\ntask a 0 4 4 2\ntask b 0 6 6 3\n",
        Status::Done,
        "job a.0 0 4 2\njob a.1 4 8 2\njob a.2 8 12 2\njob b.0 0 6 3\njob b.1 6 12 3\n# one level 12 12\n",
    ),
    (
        "plan",
        "job a.0 0 4 2\njob a.1 4 8 2\njob a.2 8 12 2\njob b.0 0 6 3\njob b.1 6 12 3\n# one level 12 12\n",
        Status::Done,
        "job a.0 0 4 2\njob a.1 4 8 2\njob a.2 8 12 2\njob b.0 0 6 3\njob b.1 6 12 3\nslot a.0 0 2 2\nslot b.0 2 4 2\nslot b.0 4 5 1\nslot a.1 5 6 1\nslot a.1 6 7 1\nslot b.1 7 8 1\nslot a.2 8 10 2\nslot b.1 10 12 2\nlevel 12 12\npiece 0 12\nmember a.0\nmember a.1\nmember a.2\nmember b.0\nmember b.1\n",
    ),
    (
        "expand",
        "horizon 10\ntask s 1 5 2 1\n",
        Status::Done,
        "job s.0 1 3 1\njob s.1 6 8 1\n",
    ),
    (
        "expand",
        "task a 0 4 4 2\n",
        Status::Refused,
        "refused 1 1 Misplaced\n",
    ),
    (
        "expand",
        "horizon 1000000000\ntask a 0 1 1 1\n",
        Status::Refused,
        "refused 2 10 TooManyJobs\n",
    ),
    (
        "expand",
        "horizon 2\ntask a 0 2 3 1\ntask b 1 2 1 0\n",
        Status::Done,
        "job b.0 1 2 0\n",
    ),
    ("expand", "", Status::Done, ""),
    (
        "expand",
        "job a 0 4 8\n",
        Status::Refused,
        "refused 1 1 UnknownKind\n",
    ),
    (
        "expand",
        "horizon 12\n horizon 12\n",
        Status::Refused,
        "refused 2 2 Misplaced\n",
    ),
    (
        "expand",
        "horizon 12\ntask a 0 4 4\n",
        Status::Refused,
        "refused 2 13 FieldCount\n",
    ),
    (
        "expand",
        "horizon 12\ntask aaaaaaaaaaaaaaaaaaaaaaaaaaaaaaaaaaaaaaaaaaaaaaaaaaaaaaaaaaaa 0 4 4 2\n",
        Status::Refused,
        "refused 2 6 BadName\n",
    ),
    (
        "expand",
        "horizon 12\ntask a 0 4 4 2\ntask a 0 6 6 3\n",
        Status::Refused,
        "refused 3 6 DuplicateName\n",
    ),
    (
        "expand",
        "horizon 12\ntask a 0 04 4 2\n",
        Status::Refused,
        "refused 2 10 BadNumber\n",
    ),
    (
        "expand",
        "horizon 12\ntask a 0 4 0 2\n",
        Status::Refused,
        "refused 2 12 OutOfRange\n",
    ),
    (
        "expand",
        "horizon 4000\ntask a 0 1 1 1\ntask b 0 4000 4000 0\n",
        Status::Refused,
        "refused 3 10 TooManyJobs\n",
    ),
    ("expand all", "", Status::Usage, USAGE),
];

/// The same of admissions.
pub static ADMISSIONS: [(&str, &str, Status, &str); 5] = [
    (
        "admit 2",
        "job a 0 4 4\njob b 0 2 4\njob c 1 3 1\n",
        Status::Done,
        "job a 0 4 4\njob b 0 2 4\nslot b 0 2 4\nslot a 2 4 4\n# refuse c from 0 to 4 work 9 top 2\n",
    ),
    (
        "admit 1",
        "job a 0 2 3\njob b 0 2 0\njob c 0 2 1\n",
        Status::Done,
        "job b 0 2 0\njob c 0 2 1\nslot c 0 2 1\n# refuse a from 0 to 2 work 3 top 1\n",
    ),
    (
        "admit 1",
        "job z 0 10 0\njob a 5 6 100\npoint 0 0\npoint 4 9\n",
        Status::Done,
        "job z 0 10 0\npoint 0 0\npoint 4 9\n# refuse a from 0 to 6 work 100 top 1\n",
    ),
    ("admit 1000000", "", Status::Done, ""),
    ("admit 1000001", "job a 0 4 8\n", Status::Usage, USAGE),
];

/// The same of the policies.
pub static POLICIES: [(&str, &str, Status, &str); 7] = [
    (
        "avr --grid 1",
        "job a 0 4 4\njob b 2 4 2\n",
        Status::Done,
        "job a 0 4 4\njob b 2 4 2\nslot a 0 2 2\nslot a 2 3 2\nslot b 3 4 2\ngrid 1 0\n",
    ),
    (
        "avr --grid 1",
        "job a 0 3 2\n",
        Status::Done,
        "job a 0 3 2\nslot a 0 3 2\ngrid 1 0\n",
    ),
    (
        "avr --grid 1",
        "job a 0 3 2\njob b 1 3 2\n",
        Status::Done,
        "job a 0 3 2\njob b 1 3 2\nslot a 0 1 1\nslot a 1 1+2/3 1\nslot b 1+2/3 3 2\ngrid 1 2\n",
    ),
    (
        "oa --grid 1",
        "job a 0 3 2\njob b 1 2 1\n",
        Status::Done,
        "job a 0 3 2\njob b 1 2 1\nslot a 0 1 1\nslot b 1 2 1\nslot a 2 3 1\ngrid 1 1\n",
    ),
    (
        "oa --grid 6",
        "job a 0 3 2\njob b 1 2 1\n",
        Status::Done,
        "job a 0 3 2\njob b 1 2 1\nslot a 0 1 0+4/6\nslot b 1 1+6/7 1\nslot a 1+6/7 2 0+1/6\nslot a 2 3 1+1/6\ngrid 6 0\n",
    ),
    (
        "audit",
        "job a 0 3 2\njob b 1 2 1\nslot a 0 1 0+4/6\nslot b 1 1+6/7 1\nslot a 1+6/7 2 0+1/6\nslot a 2 3 1+1/6\ngrid 6 0\n",
        Status::Done,
        "feasible\n",
    ),
    ("oa --grid 1000001", "job a 0 3 2\n", Status::Usage, USAGE),
];

/// The same of plans on operating points.
pub static ROUNDINGS: [(&str, &str, Status, &str); 9] = [
    (
        "round",
        "job a 0 10 10\njob b 4 6 6\npoint 0 0\npoint 1 1\npoint 2 3\npoint 4 10\n",
        Status::Done,
        "job a 0 10 10\njob b 4 6 6\npoint 0 0\npoint 1 1\npoint 2 3\npoint 4 10\nslot a 0 1 2\nslot a 1 4 3\nslot b 4 5 4\nslot b 5 6 2\nslot a 6 7 2\nslot a 7 10 3\nenergy 25\n",
    ),
    (
        "round",
        "job a 0 10 10\njob b 4 6 6\npoint 0 0\npoint 1 1\npoint 2 3\n",
        Status::No,
        "too-slow work 6 length 2 top 2\n",
    ),
    (
        "round",
        "job a 0 4 8\npoint 0 1\npoint 2 5\n",
        Status::Done,
        "job a 0 4 8\npoint 0 1\npoint 2 5\nslot a 0 4 8\nenergy 20\n",
    ),
    (
        "round",
        "job a 0 4 8\npoint 0 1\npoint 4 9\n",
        Status::Done,
        "job a 0 4 8\npoint 0 1\npoint 4 9\nslot a 0 2 8\nenergy 20\n",
    ),
    (
        "round",
        "job a 0 3 2\njob b 0 3 5\npoint 0 0\npoint 2 1\npoint 4 3\n",
        Status::Done,
        "job a 0 3 2\njob b 0 3 5\npoint 0 0\npoint 2 1\npoint 4 3\nslot a 0 0+6/12 2\nslot b 0+3/6 3 5\nenergy 4\n",
    ),
    ("round", "", Status::Refused, "refused no-table\n"),
    (
        "round",
        "# cpu0, governor trace\njob decode 0 33 26100\njob audio 5 20 3000\npoint 0 30\npoint 600 200\npoint 1200 700\npoint 1800 1600\nticks 1000\nrun decode 0 5000 1800\nrun audio 5000 10000 600\nrun decode 10000 19500 1800\n",
        Status::Done,
        "job decode 0 33 26100\njob audio 5 20 3000\npoint 0 30\npoint 600 200\npoint 1200 700\npoint 1800 1600\nslot decode 0 2+4600/13200 2818+1200/6600\nslot decode 2+2300/6600 5 1590+6000/6600\nslot audio 5 7+6600/13200 3000\nslot decode 7+6600/13200 12+600/13200 5454+3600/6600\nslot decode 12+300/6600 20 4772+4800/6600\nslot decode 20 26+1400/13200 7327+1800/6600\nslot decode 26+700/6600 33 4136+2400/6600\nenergy 14350\n",
    ),
    (
        "round",
        "job a 0 4 4\njob b 2 6 0\npoint 0 1\npoint 1 2\n",
        Status::Done,
        "job a 0 4 4\njob b 2 6 0\npoint 0 1\npoint 1 2\nslot a 0 2 2\nslot a 2 4 2\nenergy 10\n",
    ),
    (
        "round",
        "job a 0 10 10\njob b 4 6 6\npoint 0 0\npoint 1 3\npoint 2 4\npoint 4 10\n",
        Status::Done,
        "job a 0 10 10\njob b 4 6 6\npoint 0 0\npoint 1 3\npoint 2 4\npoint 4 10\nslot a 0 2+4/8 5\nslot b 4 5 4\nslot b 5 6 2\nslot a 6 8+4/8 5\nenergy 34\n",
    ),
];

/// The same of comparisons.
pub static COMPARISONS: [(&str, &str, Status, &str); 4] = [
    (
        "compare --grid 6",
        "job a 0 3 2\njob b 1 2 1\npoint 0 0\npoint 1 1\npoint 2 3\n",
        Status::Done,
        "plan energy 3\nplan time 0 0\nplan time 1 3\nplan time 2 0\navr energy 3+2/3\navr time 0 0+2/3\navr time 1 1+2/3\navr time 2 0+2/3\navr rounded 0\noa energy 3+1/3\noa time 0 0+1/3\noa time 1 2+1/3\noa time 2 0+1/3\noa rounded 0\n",
    ),
    (
        "compare --grid 6",
        "job a 0 3 2\njob b 1 2 1\npoint 0 0\npoint 1 1\n",
        Status::Done,
        "plan energy 3\nplan time 0 0\nplan time 1 3\navr too-slow units 10 from 1 to 2 top 1\navr rounded 0\noa too-slow units 7 from 1 to 2 top 1\noa rounded 0\n",
    ),
    (
        "compare --grid 6",
        "job a 0 3 2\njob b 1 2 1\npoint 0 0\n",
        Status::No,
        "too-slow work 3 length 3 top 0\n",
    ),
    (
        "compare --grid 6",
        "job a 0 3 2\njob b 1 2 1\n",
        Status::Refused,
        "refused no-table\n",
    ),
];

/// Some of them again, over sources and sinks that break.
pub static OVER_BROKEN_STREAMS: [(&str, &str, Status, &str); 5] = [
    (
        "plan",
        "job a 0 10 10\njob b 4 6 6\n",
        Status::Done,
        "job a 0 10 10\njob b 4 6 6\nslot a 0 4 5\nslot b 4 6 6\nslot a 6 10 5\nlevel 6 2\npiece 4 6\nmember b\nlevel 10 8\npiece 0 4\npiece 6 10\nmember a\n",
    ),
    (
        "plan",
        "# cpu0, governor trace\njob decode 0 33 26100\njob audio 5 20 3000\npoint 0 30\npoint 600 200\npoint 1200 700\npoint 1800 1600\nticks 1000\nrun decode 0 5000 1800\nrun audio 5000 10000 600\nrun decode 10000 19500 1800\n",
        Status::Done,
        "job decode 0 33 26100\njob audio 5 20 3000\npoint 0 30\npoint 600 200\npoint 1200 700\npoint 1800 1600\nslot decode 0 5 4409+1/11\nslot audio 5 8+3900/9700 3000\nslot decode 8+3900/9700 20 10227+3/11\nslot decode 20 33 11463+7/11\nlevel 29100 33\npiece 0 33\nmember decode\nmember audio\n",
    ),
    (
        "round",
        "job a 0 10 10\njob b 4 6 6\npoint 0 0\npoint 1 1\npoint 2 3\npoint 4 10\n",
        Status::Done,
        "job a 0 10 10\njob b 4 6 6\npoint 0 0\npoint 1 1\npoint 2 3\npoint 4 10\nslot a 0 1 2\nslot a 1 4 3\nslot b 4 5 4\nslot b 5 6 2\nslot a 6 7 2\nslot a 7 10 3\nenergy 25\n",
    ),
    (
        "audit --points",
        "job a 0 4 8\nslot a 0 4 8\nlevel 8 4\npiece 0 4\nmember a\npoint 0 0\npoint 1 1\npoint 4 9\n",
        Status::No,
        "off-point slot 1 a 0 4 8\n",
    ),
    (
        "expand",
        "horizon 12\ntask a 0 4 4 2\ntask b 0 6 6 3\n",
        Status::Done,
        "job a.0 0 4 2\njob a.1 4 8 2\njob a.2 8 12 2\njob b.0 0 6 3\njob b.1 6 12 3\n# one level 12 12\n",
    ),
];
