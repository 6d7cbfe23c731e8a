//! The values that properties take.
//!
//! They are from the standards' value definitions, as mdn-data 2.0.30 has them, beside what
//! Chromium 156 takes. What only one of them takes has `?` before it: it is not known. Written by
//! `tools/value_table.py`.

/// The words that are colours.
pub const COLOR_WORDS: &str = "\
    activeborder activecaption aliceblue antiquewhite appworkspace aqua aquamarine \
    azure background beige bisque black blanchedalmond blue blueviolet brown burlywood \
    buttonface buttonhighlight buttonshadow buttontext cadetblue captiontext chartreuse \
    chocolate coral cornflowerblue cornsilk crimson currentcolor cyan darkblue darkcyan \
    darkgoldenrod darkgray darkgreen darkgrey darkkhaki darkmagenta darkolivegreen \
    darkorange darkorchid darkred darksalmon darkseagreen darkslateblue darkslategray \
    darkslategrey darkturquoise darkviolet deeppink deepskyblue dimgray dimgrey \
    dodgerblue firebrick floralwhite forestgreen fuchsia gainsboro ghostwhite gold \
    goldenrod gray graytext green greenyellow grey highlight highlighttext honeydew \
    hotpink inactiveborder inactivecaption inactivecaptiontext indianred indigo \
    infobackground infotext ivory khaki lavender lavenderblush lawngreen lemonchiffon \
    lightblue lightcoral lightcyan lightgoldenrodyellow lightgray lightgreen lightgrey \
    lightpink lightsalmon lightseagreen lightskyblue lightslategray lightslategrey \
    lightsteelblue lightyellow lime limegreen linen magenta maroon mediumaquamarine \
    mediumblue mediumorchid mediumpurple mediumseagreen mediumslateblue \
    mediumspringgreen mediumturquoise mediumvioletred menu menutext midnightblue \
    mintcream mistyrose moccasin navajowhite navy oldlace olive olivedrab orange \
    orangered orchid palegoldenrod palegreen paleturquoise palevioletred papayawhip \
    peachpuff peru pink plum powderblue purple rebeccapurple red rosybrown royalblue \
    saddlebrown salmon sandybrown scrollbar seagreen seashell sienna silver skyblue \
    slateblue slategray slategrey snow springgreen steelblue tan teal thistle \
    threeddarkshadow threedface threedhighlight threedlightshadow threedshadow tomato \
    transparent turquoise violet wheat white whitesmoke window windowframe windowtext \
    yellow yellowgreen ?accentcolor ?accentcolortext ?activetext ?buttonborder ?canvas \
    ?canvastext ?field ?fieldtext ?linktext ?mark ?marktext ?selecteditem \
    ?selecteditemtext ?visitedtext";

/// The units, after the letters of their classes.
pub const UNIT_CLASSES: &str = "\
    l px em ex ch ic rem lh rlh cap vw vh vi vb vmin vmax svw svh svi svb svmin svmax \
    lvw lvh lvi lvb lvmin lvmax dvw dvh dvi dvb dvmin dvmax cqw cqh cqi cqb cqmin cqmax \
    cm mm q in pt pc rex rch ric rcap\n\
    a deg grad rad turn\n\
    t s ms\n\
    f hz khz\n\
    r dpi dpcm dppx x\n\
    x fr\n";

/// The words that every property takes.
pub const WIDE_WORDS: &str = "inherit initial unset revert revert-layer revert-rule";

/// The words and the functions with a vendor's prefix that Chromium knows.
pub const PREFIXED: &str = "\
    -infinity -internal-active-list-box-selection \
    -internal-active-list-box-selection-text -internal-auto-base -internal-center \
    -internal-current-search-color -internal-current-search-text-color \
    -internal-ethiopic-numeric -internal-grammar-error-color -internal-hebrew \
    -internal-inactive-list-box-selection -internal-inactive-list-box-selection-text \
    -internal-korean-hangul-formal -internal-korean-hanja-formal \
    -internal-korean-hanja-informal -internal-lower-armenian -internal-media-control \
    -internal-partial-interest-content -internal-quirk-inherit -internal-search-color \
    -internal-search-text-color -internal-simp-chinese-formal \
    -internal-simp-chinese-informal -internal-spelling-error-color \
    -internal-textarea-auto -internal-trad-chinese-formal \
    -internal-trad-chinese-informal -internal-upper-armenian -internal-variable-value \
    -webkit-activelink -webkit-auto -webkit-baseline-middle -webkit-body -webkit-box \
    -webkit-calc -webkit-center -webkit-control -webkit-cross-fade \
    -webkit-fill-available -webkit-fit-content -webkit-flex -webkit-focus-ring-color \
    -webkit-grab -webkit-grabbing -webkit-gradient -webkit-image-set -webkit-inline-box \
    -webkit-inline-flex -webkit-isolate -webkit-isolate-override -webkit-left \
    -webkit-legacy -webkit-linear-gradient -webkit-link -webkit-match-parent \
    -webkit-max-content -webkit-min-content -webkit-mini-control \
    -webkit-optimize-contrast -webkit-plaintext -webkit-radial-gradient \
    -webkit-repeating-linear-gradient -webkit-repeating-radial-gradient -webkit-right \
    -webkit-small-control -webkit-xxx-large -webkit-zoom-in -webkit-zoom-out";

/// The functions with another value in their place. With one of them anything may be in a value.
pub const SUBSTITUTED: &str = "attr env if inherit random-item var";

/// The properties that take a number as a length in quirks mode.
pub const QUIRKY_LENGTHS: &str = "\
    background-position border-bottom-width border-left-width border-right-width \
    border-spacing border-top-width border-width bottom font-size height left \
    letter-spacing margin margin-bottom margin-left margin-right margin-top \
    mask-position max-height max-width min-height min-width padding padding-bottom \
    padding-left padding-right padding-top right text-indent top vertical-align width \
    word-spacing";

/// The properties that take three or six hexadecimal digits as a colour in quirks mode.
pub const QUIRKY_COLORS: &str = "\
    background-color border-bottom-color border-color border-left-color \
    border-right-color border-top-color color";

/// For each of some properties, between bars: the names; how many components their values have, or
/// 0 for any number; the classes and the words of what is valid alone; and those of what may be in
/// a value of several, if that is not the same.
///
/// A class is a letter: `c` colours, `h` hexadecimal ones, `0` zero, `i` integers and `n` numbers
/// above it, `p` percentages, `l` lengths, `a` angles, `t` times, `f` frequencies, `r` resolutions,
/// `x` flexible lengths, `s` strings, `u` urls, `w` words that an author chooses. A capital letter
/// is for those below zero.
pub const VALUES: &str = "\
    accent-color caret-color|1|ch|auto||\n\
    align-content|0||baseline center end flex-end flex-start normal space-around \
    space-between space-evenly start stretch ?flow-end ?flow-start||baseline center end \
    first flex-end flex-start normal safe space-around space-between space-evenly start \
    stretch unsafe ?flow-end ?flow-start ?last\n\
    align-items|0||baseline center end flex-end flex-start normal self-end self-start \
    start stretch||baseline center end first flex-end flex-start last normal safe \
    self-end self-start start stretch unsafe\n\
    align-self|0||auto baseline center end flex-end flex-start normal self-end \
    self-start start stretch ?anchor-center||auto baseline center end first flex-end \
    flex-start last normal safe self-end self-start start stretch unsafe ?anchor-center\n\
    all|1||||\n\
    animation-delay transition-delay|0|Tt||Tt|\n\
    animation-direction|0||alternate alternate-reverse normal reverse||alternate \
    alternate-reverse normal reverse\n\
    animation-duration|0|t?T|?auto|t?T|?auto\n\
    animation-fill-mode|0||backwards both forwards none||backwards both forwards none\n\
    animation-iteration-count|0|0in?I?N|infinite|0in?I?N|infinite\n\
    animation-name font-family|0|sw||sw|\n\
    animation-play-state|0||paused running||paused running\n\
    animation-timeline|0|?s?w||?s?w|\n\
    animation-timing-function transition-timing-function|0||ease ease-in ease-in-out \
    ease-out linear step-end step-start||ease ease-in ease-in-out ease-out linear \
    step-end step-start\n\
    animation|0|0Tinstw?I?N||0Tinstw?I?N|\n\
    appearance|1||auto button checkbox listbox menulist menulist-button meter none \
    progress-bar radio searchfield textarea textfield ?base-select ?push-button \
    ?slider-horizontal ?slider-vertical ?square-button||\n\
    aspect-ratio|0|0in|auto|0in|auto\n\
    backdrop-filter background-image filter mask-image|0|u|none|u|none\n\
    backface-visibility|1||hidden visible||\n\
    background-attachment|0||fixed local scroll||fixed local scroll\n\
    background-blend-mode|0||color color-burn color-dodge darken difference exclusion \
    hard-light hue lighten luminosity multiply normal overlay saturation screen \
    soft-light||color color-burn color-dodge darken difference exclusion hard-light hue \
    lighten luminosity multiply normal overlay saturation screen soft-light\n\
    background-clip|0||border-box content-box padding-box ?border-area \
    ?text||border-box content-box padding-box ?border-area ?text\n\
    background-color border-block-end-color border-block-start-color \
    border-bottom-color border-inline-end-color border-inline-start-color \
    border-left-color border-right-color border-top-color color text-decoration-color \
    text-emphasis-color|1|ch|||\n\
    background-origin|0||border-box content-box padding-box||border-box content-box \
    padding-box\n\
    background-position mask-position object-position perspective-origin \
    transform-origin|0|0LPlp|bottom center left right top|0LPlp|bottom center left \
    right top\n\
    background-position-x|0|0LPlp|center left right ?x-end ?x-start|0LPlp|center left \
    right ?x-end ?x-start\n\
    background-position-y|0|0LPlp|bottom center top ?y-end ?y-start|0LPlp|bottom center \
    top ?y-end ?y-start\n\
    background-repeat mask-repeat|0||no-repeat repeat repeat-x repeat-y round \
    space||no-repeat repeat repeat-x repeat-y round space\n\
    background-size mask-size|0|0lp?L?P|auto contain cover|0lp?L?P|auto contain cover\n\
    background|0|c0LPhlpu|border-box bottom center content-box fixed left local \
    no-repeat none padding-box repeat repeat-x repeat-y right round scroll space top \
    ?border-area ?text|c0LPhlpu|auto border-box bottom center contain content-box cover \
    fixed left local no-repeat none padding-box repeat repeat-x repeat-y right round \
    scroll space top ?border-area ?text\n\
    block-size height inline-size min-block-size min-height min-inline-size min-width \
    width|1|0lp?L?P|auto fit-content max-content min-content ?stretch||\n\
    border border-block border-block-end border-block-start border-bottom border-inline \
    border-inline-end border-inline-start border-left border-right border-top \
    column-rule|0|c0hl?L|dashed dotted double groove hidden inset medium none outset \
    ridge solid thick thin|c0hl?L|dashed dotted double groove hidden inset medium none \
    outset ridge solid thick thin\n\
    border-block-color border-inline-color|2|ch|||\n\
    border-block-end-style border-block-start-style border-bottom-style \
    border-inline-end-style border-inline-start-style border-left-style \
    border-right-style border-top-style|1||dashed dotted double groove hidden inset \
    none outset ridge solid||\n\
    border-block-end-width border-block-start-width border-bottom-width \
    border-inline-end-width border-inline-start-width border-left-width \
    border-right-width border-top-width outline-width|1|0l?L|medium thick thin||\n\
    border-block-style border-inline-style column-rule-style|0||dashed dotted double \
    groove hidden inset none outset ridge solid||dashed dotted double groove hidden \
    inset none outset ridge solid\n\
    border-block-width border-inline-width column-rule-width|0|0l?L|medium thick \
    thin|0l?L|medium thick thin\n\
    border-bottom-left-radius border-bottom-right-radius border-end-end-radius \
    border-end-start-radius border-start-end-radius border-start-start-radius \
    border-top-left-radius border-top-right-radius padding-block \
    padding-inline|2|0lp?L?P|||\n\
    border-collapse|1||collapse separate||\n\
    border-color|4|ch|||\n\
    border-image-outset|4|0iln?I?L?N|||\n\
    border-image-repeat|2||repeat round space stretch||\n\
    border-image-slice|0|0inp?I?N?P||0inp?I?N?P|fill\n\
    border-image-source list-style-image|1|u|none||\n\
    border-image-width|4|0ilnp?I?L?N?P|auto||\n\
    border-image|0|0inpu?I?N?P|none repeat round space stretch|0ilnpu?I?L?N?P|auto fill \
    none repeat round space stretch\n\
    border-radius|0|0lp?L?P||0lp?L?P|\n\
    border-spacing|0|0l?L||0l?L|\n\
    border-style|4||dashed dotted double groove hidden inset none outset ridge solid||\n\
    border-width|4|0l?L|medium thick thin||\n\
    bottom inset-block-end inset-block-start inset-inline-end inset-inline-start left \
    margin-block-end margin-block-start margin-bottom margin-inline-end \
    margin-inline-start margin-left margin-right margin-top right text-underline-offset \
    top|1|0LPlp|auto||\n\
    box-decoration-break|1||clone slice||\n\
    box-shadow|0||none|c0Lhl|inset none\n\
    box-sizing|1||border-box content-box||\n\
    break-after break-before|1||auto avoid avoid-column avoid-page column left page \
    recto right verso ?all ?always ?avoid-region ?region||\n\
    break-inside|1||auto avoid avoid-column avoid-page ?avoid-region||\n\
    caption-side|1||bottom top ?block-end ?block-start ?inline-end ?inline-start||\n\
    caret-shape|1||auto bar block underscore||\n\
    clear|1||both inline-end inline-start left none right||\n\
    clip-path|0|u|border-box content-box fill-box margin-box none padding-box \
    stroke-box view-box|u|border-box content-box fill-box margin-box none padding-box \
    stroke-box view-box\n\
    clip|1||auto||\n\
    color-scheme transition-property will-change|0|w||w|\n\
    column-count|1|i?0?I|auto||\n\
    column-fill|1||auto balance ?balance-all||\n\
    column-gap row-gap|1|0lp?L?P|normal||\n\
    column-rule-color|0|ch||ch|\n\
    column-span|1||all none||\n\
    column-width|1|0l?L|auto||\n\
    columns|0|0il?I?L|auto|0il?I?L|auto\n\
    contain-intrinsic-block-size contain-intrinsic-height contain-intrinsic-inline-size \
    contain-intrinsic-size contain-intrinsic-width|0|0l?L|none|0l?L|auto none\n\
    contain|0||content inline-size layout none paint size strict style||content \
    inline-size layout none paint size strict style\n\
    content-visibility|1||auto hidden visible||\n\
    content|0|su|close-quote no-close-quote no-open-quote none normal open-quote \
    ?contents|su|close-quote no-close-quote no-open-quote none normal open-quote \
    ?contents\n\
    counter-increment counter-reset counter-set|0|w||0Iiw|\n\
    direction|1||ltr rtl||\n\
    display|0||block contents flex flow flow-root grid inline inline-block inline-flex \
    inline-grid inline-table list-item none ruby ruby-text table table-caption \
    table-cell table-column table-column-group table-footer-group table-header-group \
    table-row table-row-group ?inline-list-item ?math ?ruby-base ?ruby-base-container \
    ?ruby-text-container ?run-in||block contents flex flow flow-root grid inline \
    inline-block inline-flex inline-grid inline-table list-item none ruby ruby-text \
    table table-caption table-cell table-column table-column-group table-footer-group \
    table-header-group table-row table-row-group ?inline-list-item ?math ?ruby-base \
    ?ruby-base-container ?ruby-text-container ?run-in\n\
    empty-cells|1||hide show||\n\
    flex-basis|1|0lp?L?P|auto content fit-content max-content min-content ?stretch||\n\
    flex-direction|1||column column-reverse row row-reverse||\n\
    flex-flow|0||column column-reverse nowrap row row-reverse wrap wrap-reverse \
    ?balance||column column-reverse nowrap row row-reverse wrap wrap-reverse ?balance\n\
    flex-grow flex-shrink|1|0in?I?N|||\n\
    flex-wrap|0||nowrap wrap wrap-reverse ?balance||nowrap wrap wrap-reverse ?balance\n\
    flex|0|0ilnp?I?L?N?P|auto content fit-content max-content min-content none \
    ?stretch|0ilnp?I?L?N?P|auto content fit-content max-content min-content none \
    ?stretch\n\
    float|1||inline-end inline-start left none right||\n\
    font-feature-settings|0|?s|normal|0Ii?s|normal off on\n\
    font-kerning|1||auto none normal||\n\
    font-language-override|1|s|normal||\n\
    font-optical-sizing|1||auto none||\n\
    font-size-adjust|0|0in?I?N|from-font none|0in?I?N|cap-height ch-width ex-height \
    from-font ic-height ic-width none\n\
    font-size|1|0lp?L?P|large larger medium small smaller x-large x-small xx-large \
    xx-small xxx-large ?math||\n\
    font-stretch|1|p?P|condensed expanded extra-condensed extra-expanded normal \
    semi-condensed semi-expanded ultra-condensed ultra-expanded||\n\
    font-style|0||italic normal oblique|A?a|italic normal oblique\n\
    font-synthesis|0||none small-caps style weight||none small-caps style weight\n\
    font-variant-alternates|0||historical-forms normal||historical-forms normal\n\
    font-variant-caps|1||all-petite-caps all-small-caps normal petite-caps small-caps \
    titling-caps unicase||\n\
    font-variant-east-asian|0||full-width jis04 jis78 jis83 jis90 normal \
    proportional-width ruby simplified traditional||full-width jis04 jis78 jis83 jis90 \
    normal proportional-width ruby simplified traditional\n\
    font-variant-ligatures|0||common-ligatures contextual discretionary-ligatures \
    historical-ligatures no-common-ligatures no-contextual no-discretionary-ligatures \
    no-historical-ligatures none normal||common-ligatures contextual \
    discretionary-ligatures historical-ligatures no-common-ligatures no-contextual \
    no-discretionary-ligatures no-historical-ligatures none normal\n\
    font-variant-numeric|0||diagonal-fractions lining-nums normal oldstyle-nums ordinal \
    proportional-nums slashed-zero stacked-fractions tabular-nums||diagonal-fractions \
    lining-nums normal oldstyle-nums ordinal proportional-nums slashed-zero \
    stacked-fractions tabular-nums\n\
    font-variant-position|1||normal sub super||\n\
    font-variant|0||all-petite-caps all-small-caps common-ligatures contextual \
    diagonal-fractions discretionary-ligatures full-width historical-forms \
    historical-ligatures jis04 jis78 jis83 jis90 lining-nums no-common-ligatures \
    no-contextual no-discretionary-ligatures no-historical-ligatures none normal \
    oldstyle-nums ordinal petite-caps proportional-nums proportional-width ruby \
    simplified slashed-zero small-caps stacked-fractions tabular-nums titling-caps \
    traditional unicase ?emoji ?sub ?super ?text ?unicode||all-petite-caps \
    all-small-caps common-ligatures contextual diagonal-fractions \
    discretionary-ligatures full-width historical-forms historical-ligatures jis04 \
    jis78 jis83 jis90 lining-nums no-common-ligatures no-contextual \
    no-discretionary-ligatures no-historical-ligatures none normal oldstyle-nums \
    ordinal petite-caps proportional-nums proportional-width ruby simplified \
    slashed-zero small-caps stacked-fractions tabular-nums titling-caps traditional \
    unicase ?emoji ?sub ?super ?text ?unicode\n\
    font-variation-settings|0||normal|?0?I?N?i?n?s|normal\n\
    font-weight|1|?i?n|bold bolder lighter normal||\n\
    font|0||caption icon menu message-box small-caption status-bar|0AIilnpsw?L?N?P?a|\n\
    forced-color-adjust|1||auto none ?preserve-parent-color||\n\
    gap|0|0lp?L?P|normal|0lp?L?P|normal\n\
    grid-area grid-column grid-column-end grid-column-start grid-row grid-row-end \
    grid-row-start|0|Iiw?0||Iiw?0|\n\
    grid-auto-columns grid-auto-rows|0|0lpx?L?P?X|auto max-content \
    min-content|0lpx?L?P?X|auto max-content min-content\n\
    grid-auto-flow|0||column dense row||column dense row\n\
    grid-column-gap grid-row-gap|1|0lp?L?P|?normal||\n\
    grid-gap|0|0lp?L?P|?normal|0lp?L?P|?normal\n\
    grid-template-areas|0|s|none|s|none\n\
    hyphenate-character|1|s|auto||\n\
    hyphens|1||auto manual none||\n\
    image-orientation|0|?A?a|from-image ?flip ?none|?A?a|from-image ?flip ?none\n\
    image-rendering|1||auto crisp-edges pixelated||\n\
    initial-letter|0|i?0?I?N?n|normal|i?0?I?N?n|normal ?drop ?raise\n\
    inset margin|4|0LPlp|auto||\n\
    inset-block inset-inline margin-block margin-inline|2|0LPlp|auto||\n\
    isolation|1||auto isolate||\n\
    justify-content|0||center end flex-end flex-start left normal right space-around \
    space-between space-evenly start stretch ?flow-end ?flow-start||center end flex-end \
    flex-start left normal right safe space-around space-between space-evenly start \
    stretch unsafe ?flow-end ?flow-start\n\
    justify-items|0||baseline center end flex-end flex-start left legacy normal right \
    self-end self-start start stretch||baseline center end first flex-end flex-start \
    last left legacy normal right safe self-end self-start start stretch unsafe\n\
    justify-self|0||auto baseline center end flex-end flex-start left normal right \
    self-end self-start start stretch ?anchor-center||auto baseline center end first \
    flex-end flex-start last left normal right safe self-end self-start start stretch \
    unsafe ?anchor-center\n\
    letter-spacing word-spacing|1|0Ll?P?p|normal||\n\
    line-break|1||anywhere auto loose normal strict||\n\
    line-height|1|0ilnp?I?L?N?P|normal||\n\
    list-style-position|1||inside outside||\n\
    list-style-type|1|sw|||\n\
    list-style|0|suw||suw|\n\
    margin-trim|0||none ?all ?block ?block-end ?block-start ?in-flow||none ?all ?block \
    ?block-end ?block-start ?in-flow\n\
    mask-clip|0||border-box content-box fill-box no-clip padding-box stroke-box \
    view-box ?margin-box||border-box content-box fill-box no-clip padding-box \
    stroke-box view-box ?margin-box\n\
    mask-composite|0||add exclude intersect subtract||add exclude intersect subtract\n\
    mask-mode|0||alpha luminance match-source||alpha luminance match-source\n\
    mask-origin|0||border-box content-box fill-box padding-box stroke-box view-box \
    ?margin-box||border-box content-box fill-box padding-box stroke-box view-box \
    ?margin-box\n\
    mask-type|1||alpha luminance||\n\
    mask|0|0LPlpu|add alpha border-box bottom center content-box exclude fill-box \
    intersect left luminance match-source no-clip no-repeat none padding-box repeat \
    repeat-x repeat-y right round space stroke-box subtract top view-box \
    ?margin-box|0LPlpu|add alpha auto border-box bottom center contain content-box \
    cover exclude fill-box intersect left luminance match-source no-clip no-repeat none \
    padding-box repeat repeat-x repeat-y right round space stroke-box subtract top \
    view-box ?margin-box\n\
    math-depth|1|0Ii|auto-add||\n\
    math-shift math-style|1||compact normal||\n\
    max-block-size max-height max-inline-size max-width|1|0lp?L?P|fit-content \
    max-content min-content none ?stretch||\n\
    mix-blend-mode|1||color color-burn color-dodge darken difference exclusion \
    hard-light hue lighten luminosity multiply normal overlay plus-lighter saturation \
    screen soft-light||\n\
    object-fit|1||contain cover fill none scale-down||\n\
    offset-anchor|0|0LPlp|auto bottom center left right top|0LPlp|auto bottom center \
    left right top\n\
    offset-distance|1|0LPlp|||\n\
    offset-path|0|u|border-box content-box fill-box none padding-box stroke-box \
    view-box ?margin-box|u|border-box content-box fill-box none padding-box stroke-box \
    view-box ?margin-box\n\
    offset-position|0|0LPlp|auto bottom center left right top ?normal|0LPlp|auto bottom \
    center left right top ?normal\n\
    offset-rotate|0|Aa|auto reverse|Aa|auto reverse\n\
    offset|0|0LPlpu|auto border-box bottom center content-box fill-box left none \
    padding-box right stroke-box top view-box ?margin-box ?normal|0ALPalpu|auto \
    border-box bottom center content-box fill-box left none padding-box reverse right \
    stroke-box top view-box ?margin-box ?normal\n\
    opacity shape-image-threshold|1|0INPinp|||\n\
    order|1|0Ii|||\n\
    orphans widows|1|i?0?I|||\n\
    outline-color|1|ch|?invert||\n\
    outline-offset scroll-margin-block-end scroll-margin-block-start \
    scroll-margin-bottom scroll-margin-inline-end scroll-margin-inline-start \
    scroll-margin-left scroll-margin-right scroll-margin-top|1|0Ll|||\n\
    outline-style|0||auto dashed dotted double groove inset none outset ridge solid \
    ?hidden||auto dashed dotted double groove inset none outset ridge solid ?hidden\n\
    outline|0|c0hl?L|auto dashed dotted double groove inset medium none outset ridge \
    solid thick thin ?hidden ?invert|c0hl?L|auto dashed dotted double groove inset \
    medium none outset ridge solid thick thin ?hidden ?invert\n\
    overflow-anchor|1||auto none ?visible||\n\
    overflow-block overflow-inline overflow-x overflow-y|1||auto clip hidden scroll \
    visible ?overlay||\n\
    overflow-clip-margin|0|l?0?L|border-box content-box padding-box|0l?L|border-box \
    content-box padding-box\n\
    overflow-wrap|1||anywhere break-word normal||\n\
    overflow|2||auto clip hidden scroll visible ?overlay||\n\
    overscroll-behavior-block overscroll-behavior-inline overscroll-behavior-x \
    overscroll-behavior-y|1||auto contain none ?chain||\n\
    overscroll-behavior|2||auto contain none ?chain||\n\
    padding-block-end padding-block-start padding-bottom padding-inline-end \
    padding-inline-start padding-left padding-right padding-top \
    shape-margin|1|0lp?L?P|||\n\
    padding|4|0lp?L?P|||\n\
    page-break-after page-break-before|1||always auto avoid left right ?recto ?verso||\n\
    page-break-inside|1||auto avoid||\n\
    paint-order|0||fill markers normal stroke||fill markers normal stroke\n\
    perspective|1|0l?L|none||\n\
    place-content|0||baseline center end flex-end flex-start normal space-around \
    space-between space-evenly start stretch ?flow-end ?flow-start||baseline center end \
    first flex-end flex-start left normal right safe space-around space-between \
    space-evenly start stretch unsafe ?flow-end ?flow-start ?last\n\
    place-items|0||baseline center end flex-end flex-start normal self-end self-start \
    start stretch||baseline center end first flex-end flex-start last left legacy \
    normal right safe self-end self-start start stretch unsafe\n\
    place-self|0||auto baseline center end flex-end flex-start normal self-end \
    self-start start stretch ?anchor-center||auto baseline center end first flex-end \
    flex-start last left normal right safe self-end self-start start stretch unsafe \
    ?anchor-center\n\
    pointer-events|1||all auto fill none painted stroke visible visiblefill \
    visiblepainted visiblestroke ?bounding-box||\n\
    position|1||absolute fixed relative static sticky||\n\
    print-color-adjust|1||economy exact||\n\
    quotes|0||auto none|?s|auto none\n\
    resize|1||block both horizontal inline none vertical ?auto||\n\
    rotate|0|Aa|none|0AINain|none x y z\n\
    ruby-align|1||center space-around space-between start||\n\
    ruby-position|0||over under ?alternate ?inter-character||over under ?alternate \
    ?inter-character\n\
    scale|0|0INin?P?p|none|0INin?P?p|none\n\
    scroll-behavior|1||auto smooth||\n\
    scroll-margin-block scroll-margin-inline|2|0Ll|||\n\
    scroll-margin|4|0Ll|||\n\
    scroll-padding-block scroll-padding-inline|2|0lp?L?P|auto||\n\
    scroll-padding-block-end scroll-padding-block-start scroll-padding-bottom \
    scroll-padding-inline-end scroll-padding-inline-start scroll-padding-left \
    scroll-padding-right scroll-padding-top|1|0lp?L?P|auto||\n\
    scroll-padding|4|0lp?L?P|auto||\n\
    scroll-snap-align|2||center end none start||\n\
    scroll-snap-stop|1||always normal||\n\
    scroll-snap-type|0||block both inline none x y ?pair||block both inline mandatory \
    none proximity x y ?pair\n\
    scroll-timeline-axis|0||block inline ?horizontal ?vertical ?x ?y||block inline \
    ?horizontal ?vertical ?x ?y\n\
    scroll-timeline-name|0|?w||?w|\n\
    scrollbar-color|0||auto|?c?h|auto\n\
    scrollbar-gutter|0||auto stable||auto both-edges stable\n\
    scrollbar-width|1||auto none thin||\n\
    shape-outside|0|u|border-box content-box margin-box none padding-box|u|border-box \
    content-box margin-box none padding-box\n\
    tab-size|1|0il?I?L?n|||\n\
    table-layout|1||auto fixed||\n\
    text-align-last|1||auto center end justify left right start||\n\
    text-align|1||center end justify left right start ?match-parent||\n\
    text-combine-upright|0||all none ?digits|?0?I?i|all none ?digits\n\
    text-decoration-line|0||blink grammar-error line-through none overline \
    spelling-error underline||blink grammar-error line-through none overline \
    spelling-error underline\n\
    text-decoration-skip-ink|1||all auto none||\n\
    text-decoration-style|1||dashed dotted double solid wavy||\n\
    text-decoration-thickness|1|0LPlp|auto from-font||\n\
    text-decoration|0|c0LPhlp|auto blink dashed dotted double from-font grammar-error \
    line-through none overline solid spelling-error underline wavy|c0LPhlp|auto blink \
    dashed dotted double from-font grammar-error line-through none overline solid \
    spelling-error underline wavy\n\
    text-emphasis-position|0||?over ?under||left over right under\n\
    text-emphasis-style|0|s|circle dot double-circle filled none open sesame \
    triangle|s|circle dot double-circle filled none open sesame triangle\n\
    text-emphasis|0|chs|circle dot double-circle filled none open sesame \
    triangle|chs|circle dot double-circle filled none open sesame triangle\n\
    text-indent|0|0LPlp||0LPlp|each-line hanging\n\
    text-justify|1||auto inter-character inter-word none ?distribute||\n\
    text-orientation|1||mixed sideways upright ?sideways-right||\n\
    text-overflow|0|?s|clip ellipsis|?s|clip ellipsis\n\
    text-rendering|1||auto geometricprecision optimizelegibility optimizespeed||\n\
    text-shadow|0||none|c0Lhl|none\n\
    text-size-adjust|1|p?P|auto none||\n\
    text-transform|1||capitalize lowercase none uppercase ?full-size-kana ?full-width \
    ?math-auto||\n\
    text-underline-position|0||auto from-font left right under||auto from-font left \
    right under\n\
    touch-action|0||auto manipulation none pan-down pan-left pan-right pan-up pan-x \
    pan-y pinch-zoom||auto manipulation none pan-down pan-left pan-right pan-up pan-x \
    pan-y pinch-zoom\n\
    transform-box|1||border-box content-box fill-box stroke-box view-box||\n\
    transform-style|1||flat preserve-3d||\n\
    transform|0||none||none\n\
    transition-duration|0|t?T||t?T|\n\
    transition|0|Ttw||Ttw|\n\
    translate|0|0LPlp|none|0LPlp|none\n\
    unicode-bidi|1||bidi-override embed isolate isolate-override normal plaintext||\n\
    user-select|1||all auto none text ?contain||\n\
    vertical-align|1|0LPlp|baseline bottom middle sub super text-bottom text-top top||\n\
    visibility|1||collapse hidden visible||\n\
    white-space|0||break-spaces normal nowrap pre pre-line pre-wrap ?collapse ?preserve \
    ?preserve-breaks ?wrap||break-spaces normal nowrap pre pre-line pre-wrap ?collapse \
    ?preserve ?preserve-breaks ?wrap\n\
    word-break|1||break-all break-word keep-all normal ?auto-phrase||\n\
    word-wrap|1||break-word normal ?anywhere||\n\
    writing-mode|1||horizontal-tb sideways-lr sideways-rl vertical-lr vertical-rl ?lr \
    ?lr-tb ?rl ?rl-tb ?tb ?tb-rl||\n\
    z-index|1|0Ii|auto||\n\
    zoom|1|0inp?I?N?P|normal ?reset||\n";
