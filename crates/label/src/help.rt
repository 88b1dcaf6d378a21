// What the program says of itself.
use streams::say;

// Says how the program is called.
pub(crate) fn usage(rt: &impl Print) {
    say!(rt;
        "usage: label [--level L|M|Q|H] [--versions A-B] [--mask auto|0..7] [--boost on|off] [--help]\n",
        "       label read\n",
    );
}

// Says how the program is called, and what it does.
pub(crate) fn help(rt: &impl Print) {
    usage(rt);
    say!(rt;
        "\nReads a text from standard input and draws its label in the terminal.\n",
        "A text typed in the terminal ends with Ctrl-D at the start of a line.\n",
        "One newline at the end of the text is taken off. A text has at most 8192 bytes.\n\n",
        "  --level L|M|Q|H   the least error correction level (M)\n",
        "  --versions A-B    the versions to choose from, within 1-40 (1-40)\n",
        "  --mask auto|0..7  the mask pattern (auto)\n",
        "  --boost on|off    take a higher level where the version has room for it (on)\n",
        "  --help            this text\n\n",
        "label read reads a label from standard input, as label draws it, or as rows of 0 and 1,\n",
        "one row a line. It says version, level and mask, and each segment: its kind, its length\n",
        "and its characters, or its ECI number. A byte that is no printable ASCII character, and\n",
        "the backslash, are shown as \\xNN.\n\n",
        "Where there is no label, a line on standard output says why.\n",
        "The program has no exit status of its own: it is 0 after a refusal too.\n",
    );
}
