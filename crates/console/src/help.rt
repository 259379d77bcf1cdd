// What the console's words are.
use terminal::Out;

fn say_words(out: &mut Out) {
    out.say(
        b"A command by name is written as a host would write it:\n\
        \x20 start, control, safe, full, power, spot, cover, dock, demo -1 (-1 to 9)\n\
        \x20 drive 200 500 (velocity, radius), direct 500 -500 (right, left)\n\
        \x20 drivers 7, duties 32 0 128 (drivers 2, 1, 0), leds 8 0 128, outputs 5\n\
        \x20 infrared 142, baud 10, song 0 60 32 64 32 (song, notes), play 0\n\
        \x20 sensors 35, list 9 13, stream 29 13, pause 0\n\
        Bytes and other calls:\n\
        \x20 128 0x83 ..                 bytes, all frames of them; `bytes 128 ..` is the same\n\
        \x20 run 128 131 ..              one run: it ends with the first frame that ends\n\
        \x20 stop                        511 bytes of 128, which stop every accepted record\n\
        \x20 report drop cliff charger   a safety report with any of the three words\n\
        \x20 tick, song-end              those calls\n\
        \x20 repeat N WORDS              a line N times, 1 to 1000; what comes again is counted\n",
    );
}

fn say_settings(out: &mut Out) {
    out.say(
        b"The record, and what is lent:\n\
        \x20 state                       the whole record\n\
        \x20 set mode 2 order 1 ..       parts of the record by name, so bad records too:\n\
        \x20     mode N, order N (0 none, 1 Drive, 2 Direct), first N, second N, duty I N, baud N,\n\
        \x20     led I N, outputs N, ir N, selected N, playing N, length SONG N, note SONG I N,\n\
        \x20     id I N, ids N, streaming N, held I N, stored N, owed N\n\
        \x20 accepts?                    whether the record is accepted, and by what it is not\n\
        \x20 power-on                    the record as at power-on; room and image stay\n\
        \x20 room N                      the lent buffer's length, 0 to 1024, at first 832\n\
        \x20 image N ..                  the 40 bytes of the sensor image, at first all 0\n\
        \x20 verbose, raw                every byte shown; answers as bytes; again to undo it\n\
        \x20 help or ?, quit             this; the end\n\
        Words are in lower case, numbers decimal or hexadecimal (0x80), # begins a comment, and a\n\
        line has at most 4096 bytes. A bad line is told and does nothing.\n",
    );
}

pub fn say_help(out: &mut Out) {
    say_words(out);
    say_settings(out);
    out.say(
        b"In Safe, drop and charger stop the base, and so does a cliff that it moves into: a drive\n\
        forwards, or backwards on a radius strictly between -165 and 165; a direct with a wheel\n\
        above 0, or with neither, the two different, and 129 times their sum below 165 times their\n\
        difference, both without their signs. In brackets behind an order are the speeds that the\n\
        wheels are given: v(r + 129)/r right and v(r - 129)/r left for velocity v and radius r,\n\
        rounded, halves away from zero, and then held to -500 and 500 each. Radius 1 turns\n\
        counterclockwise on the spot, -1 clockwise, and 32767 and -32768 go straight.\n",
    );
}
