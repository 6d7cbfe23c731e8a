//! The names of CSS that are known, in the order of the alphabet.
//!
//! They are from the modules of CSS as the W3C publishes them, and from the lists of MDN (mdn-data 2.0.30) and CSSTree
//! (2.3.0). Names with a vendor's prefix are never reported.

/// The properties of elements: those that Chromium 156 knows, of the names in `document.body.style` written with
/// hyphens those for which `CSS.supports(name, "inherit")`, and those of CSS 2 and CSS Speech, of drafts and of other
/// browsers.
pub const PROPERTIES: &str = "\
    -webkit-align-content -webkit-align-items -webkit-align-self -webkit-animation \
    -webkit-animation-delay -webkit-animation-direction -webkit-animation-duration \
    -webkit-animation-fill-mode -webkit-animation-iteration-count -webkit-animation-name \
    -webkit-animation-play-state -webkit-animation-timing-function -webkit-app-region \
    -webkit-appearance -webkit-backface-visibility -webkit-background-clip \
    -webkit-background-origin -webkit-background-size -webkit-border-after \
    -webkit-border-after-color -webkit-border-after-style -webkit-border-after-width \
    -webkit-border-before -webkit-border-before-color -webkit-border-before-style \
    -webkit-border-before-width -webkit-border-bottom-left-radius \
    -webkit-border-bottom-right-radius -webkit-border-end -webkit-border-end-color \
    -webkit-border-end-style -webkit-border-end-width -webkit-border-horizontal-spacing \
    -webkit-border-image -webkit-border-radius -webkit-border-start -webkit-border-start-color \
    -webkit-border-start-style -webkit-border-start-width -webkit-border-top-left-radius \
    -webkit-border-top-right-radius -webkit-border-vertical-spacing -webkit-box-align \
    -webkit-box-decoration-break -webkit-box-direction -webkit-box-flex \
    -webkit-box-ordinal-group -webkit-box-orient -webkit-box-pack -webkit-box-reflect \
    -webkit-box-shadow -webkit-box-sizing -webkit-clip-path -webkit-column-break-after \
    -webkit-column-break-before -webkit-column-break-inside -webkit-column-count \
    -webkit-column-gap -webkit-column-rule -webkit-column-rule-color -webkit-column-rule-style \
    -webkit-column-rule-width -webkit-column-span -webkit-column-width -webkit-columns \
    -webkit-filter -webkit-flex -webkit-flex-basis -webkit-flex-direction -webkit-flex-flow \
    -webkit-flex-grow -webkit-flex-shrink -webkit-flex-wrap -webkit-font-feature-settings \
    -webkit-font-smoothing -webkit-hyphenate-character -webkit-justify-content \
    -webkit-line-break -webkit-line-clamp -webkit-locale -webkit-logical-height \
    -webkit-logical-width -webkit-margin-after -webkit-margin-before -webkit-margin-end \
    -webkit-margin-start -webkit-mask -webkit-mask-box-image -webkit-mask-box-image-outset \
    -webkit-mask-box-image-repeat -webkit-mask-box-image-slice -webkit-mask-box-image-source \
    -webkit-mask-box-image-width -webkit-mask-clip -webkit-mask-composite -webkit-mask-image \
    -webkit-mask-origin -webkit-mask-position -webkit-mask-position-x -webkit-mask-position-y \
    -webkit-mask-repeat -webkit-mask-size -webkit-max-logical-height -webkit-max-logical-width \
    -webkit-min-logical-height -webkit-min-logical-width -webkit-opacity -webkit-order \
    -webkit-padding-after -webkit-padding-before -webkit-padding-end -webkit-padding-start \
    -webkit-perspective -webkit-perspective-origin -webkit-perspective-origin-x \
    -webkit-perspective-origin-y -webkit-print-color-adjust -webkit-rtl-ordering \
    -webkit-ruby-position -webkit-shape-image-threshold -webkit-shape-margin \
    -webkit-shape-outside -webkit-tap-highlight-color -webkit-text-combine \
    -webkit-text-decorations-in-effect -webkit-text-emphasis -webkit-text-emphasis-color \
    -webkit-text-emphasis-position -webkit-text-emphasis-style -webkit-text-fill-color \
    -webkit-text-orientation -webkit-text-security -webkit-text-size-adjust \
    -webkit-text-stroke -webkit-text-stroke-color -webkit-text-stroke-width -webkit-transform \
    -webkit-transform-origin -webkit-transform-origin-x -webkit-transform-origin-y \
    -webkit-transform-origin-z -webkit-transform-style -webkit-transition \
    -webkit-transition-delay -webkit-transition-duration -webkit-transition-property \
    -webkit-transition-timing-function -webkit-user-drag -webkit-user-modify \
    -webkit-user-select -webkit-writing-mode accelerator accent-color align-content \
    align-items align-self align-tracks alignment-baseline all anchor-name anchor-scope \
    animation animation-composition animation-delay animation-direction animation-duration \
    animation-fill-mode animation-iteration-count animation-name animation-play-state \
    animation-range animation-range-end animation-range-start animation-timeline \
    animation-timing-function animation-trigger app-region appearance aspect-ratio azimuth \
    backdrop-filter backface-visibility background background-attachment background-blend-mode \
    background-clip background-color background-image background-origin background-position \
    background-position-x background-position-y background-repeat background-size \
    baseline-shift baseline-source behavior block-overflow block-size block-step \
    block-step-align block-step-insert block-step-round block-step-size bookmark-label \
    bookmark-level bookmark-state border border-block border-block-color border-block-end \
    border-block-end-color border-block-end-style border-block-end-width border-block-start \
    border-block-start-color border-block-start-style border-block-start-width \
    border-block-style border-block-width border-bottom border-bottom-color \
    border-bottom-left-radius border-bottom-right-radius border-bottom-style \
    border-bottom-width border-boundary border-collapse border-color border-end-end-radius \
    border-end-start-radius border-image border-image-outset border-image-repeat \
    border-image-slice border-image-source border-image-width border-inline \
    border-inline-color border-inline-end border-inline-end-color border-inline-end-style \
    border-inline-end-width border-inline-start border-inline-start-color \
    border-inline-start-style border-inline-start-width border-inline-style \
    border-inline-width border-left border-left-color border-left-style border-left-width \
    border-radius border-right border-right-color border-right-style border-right-width \
    border-shape border-spacing border-start-end-radius border-start-start-radius border-style \
    border-top border-top-color border-top-left-radius border-top-right-radius \
    border-top-style border-top-width border-width bottom box-align box-decoration-break \
    box-direction box-flex box-flex-group box-lines box-ordinal-group box-orient box-pack \
    box-shadow box-sizing box-snap break-after break-before break-inside buffered-rendering \
    caption-side caret caret-animation caret-color caret-shape clear clip clip-path clip-rule \
    color color-adjust color-interpolation color-interpolation-filters color-profile \
    color-rendering color-scheme column-count column-fill column-gap column-height column-rule \
    column-rule-break column-rule-color column-rule-inset column-rule-inset-cap \
    column-rule-inset-cap-end column-rule-inset-cap-start column-rule-inset-end \
    column-rule-inset-junction column-rule-inset-junction-end column-rule-inset-junction-start \
    column-rule-inset-start column-rule-style column-rule-visibility-items column-rule-width \
    column-span column-width column-wrap columns contain contain-intrinsic-block-size \
    contain-intrinsic-height contain-intrinsic-inline-size contain-intrinsic-size \
    contain-intrinsic-width container container-name container-type content content-visibility \
    continue copy-into corner-block-end-shape corner-block-start-shape \
    corner-bottom-left-shape corner-bottom-right-shape corner-bottom-shape \
    corner-end-end-shape corner-end-start-shape corner-inline-end-shape \
    corner-inline-start-shape corner-left-shape corner-right-shape corner-shape \
    corner-start-end-shape corner-start-start-shape corner-top-left-shape \
    corner-top-right-shape corner-top-shape counter-increment counter-reset counter-set cue \
    cue-after cue-before cursor cx cy d direction display dominant-baseline \
    dynamic-range-limit elevation empty-cells enable-background field-sizing fill fill-opacity \
    fill-rule filter flex flex-basis flex-direction flex-flow flex-grow flex-line-count \
    flex-shrink flex-wrap float float-defer float-offset float-reference flood-color \
    flood-opacity flow-from flow-into font font-effect font-emphasize font-family \
    font-feature-settings font-kerning font-language-override font-max-size font-min-size \
    font-optical-sizing font-palette font-size font-size-adjust font-smooth font-stretch \
    font-style font-synthesis font-synthesis-position font-synthesis-small-caps \
    font-synthesis-style font-synthesis-weight font-variant font-variant-alternates \
    font-variant-caps font-variant-east-asian font-variant-emoji font-variant-ligatures \
    font-variant-numeric font-variant-position font-variation-settings font-weight font-width \
    footnote-display footnote-policy forced-color-adjust frame-sizing gap \
    glyph-orientation-horizontal glyph-orientation-vertical grid grid-area grid-auto-columns \
    grid-auto-flow grid-auto-rows grid-column grid-column-end grid-column-gap \
    grid-column-start grid-gap grid-row grid-row-end grid-row-gap grid-row-start grid-template \
    grid-template-areas grid-template-columns grid-template-rows hanging-punctuation height \
    hyphenate-character hyphenate-limit-chars hyphenate-limit-last hyphenate-limit-lines \
    hyphenate-limit-zone hyphens icon image-orientation image-rendering image-resolution \
    ime-mode initial-letter initial-letter-align initial-letter-wrap inline-size inline-sizing \
    input-security inset inset-block inset-block-end inset-block-start inset-inline \
    inset-inline-end inset-inline-start interactivity interest-delay interest-delay-end \
    interest-delay-start interpolate-size isolation item-cross item-direction item-flow \
    item-pack item-slack item-track item-wrap justify-content justify-items justify-self \
    justify-tracks kerning layout-flow layout-grid layout-grid-char layout-grid-line \
    layout-grid-mode layout-grid-type leading-trim left letter-spacing lighting-color \
    line-break line-clamp line-fit-edge line-grid line-height line-height-step line-increment \
    line-padding line-snap link-parameters list-style list-style-image list-style-position \
    list-style-type margin margin-block margin-block-end margin-block-start margin-bottom \
    margin-break margin-inline margin-inline-end margin-inline-start margin-left margin-right \
    margin-top margin-trim marker marker-end marker-mid marker-side marker-start marks mask \
    mask-border mask-border-mode mask-border-outset mask-border-repeat mask-border-slice \
    mask-border-source mask-border-width mask-clip mask-composite mask-image mask-mode \
    mask-origin mask-position mask-repeat mask-size mask-type masonry-auto-flow math-depth \
    math-shift math-style max-block-size max-height max-inline-size max-lines max-width \
    min-block-size min-height min-inline-size min-width mix-blend-mode motion motion-offset \
    motion-path motion-rotation nav-down nav-index nav-left nav-right nav-up object-fit \
    object-position object-view-box offset offset-after offset-anchor offset-before \
    offset-distance offset-end offset-path offset-position offset-rotate offset-start opacity \
    order orphans outline outline-color outline-offset outline-style outline-width overflow \
    overflow-anchor overflow-block overflow-clip-box overflow-clip-box-block \
    overflow-clip-box-inline overflow-clip-margin overflow-clip-margin-block \
    overflow-clip-margin-block-end overflow-clip-margin-block-start \
    overflow-clip-margin-bottom overflow-clip-margin-inline overflow-clip-margin-inline-end \
    overflow-clip-margin-inline-start overflow-clip-margin-left overflow-clip-margin-right \
    overflow-clip-margin-top overflow-inline overflow-wrap overflow-x overflow-y overlay \
    overscroll-behavior overscroll-behavior-block overscroll-behavior-inline \
    overscroll-behavior-x overscroll-behavior-y padding padding-block padding-block-end \
    padding-block-start padding-bottom padding-inline padding-inline-end padding-inline-start \
    padding-left padding-right padding-top page page-break-after page-break-before \
    page-break-inside page-margin-safety page-orientation page-policy paint-order pause \
    pause-after pause-before perspective perspective-origin pitch pitch-range place-content \
    place-items place-self play-during pointer-events position position-anchor position-area \
    position-try position-try-fallbacks position-try-order position-visibility \
    presentation-level print-color-adjust quotes r reading-flow reading-order region-fragment \
    resize rest rest-after rest-before richness right rotate rotation rotation-point row-gap \
    row-rule row-rule-break row-rule-color row-rule-inset row-rule-inset-cap \
    row-rule-inset-cap-end row-rule-inset-cap-start row-rule-inset-end row-rule-inset-junction \
    row-rule-inset-junction-end row-rule-inset-junction-start row-rule-inset-start \
    row-rule-style row-rule-visibility-items row-rule-width ruby-align ruby-merge \
    ruby-overhang ruby-position rule rule-break rule-color rule-inset rule-inset-cap \
    rule-inset-end rule-inset-junction rule-inset-start rule-overlap rule-style \
    rule-visibility-items rule-width running rx ry scale scroll-axis-lock scroll-behavior \
    scroll-initial-target scroll-margin scroll-margin-block scroll-margin-block-end \
    scroll-margin-block-start scroll-margin-bottom scroll-margin-inline \
    scroll-margin-inline-end scroll-margin-inline-start scroll-margin-left scroll-margin-right \
    scroll-margin-top scroll-marker-group scroll-padding scroll-padding-block \
    scroll-padding-block-end scroll-padding-block-start scroll-padding-bottom \
    scroll-padding-inline scroll-padding-inline-end scroll-padding-inline-start \
    scroll-padding-left scroll-padding-right scroll-padding-top scroll-snap-align \
    scroll-snap-coordinate scroll-snap-destination scroll-snap-points-x scroll-snap-points-y \
    scroll-snap-stop scroll-snap-type scroll-snap-type-x scroll-snap-type-y scroll-start \
    scroll-start-block scroll-start-inline scroll-start-x scroll-start-y scroll-target-group \
    scroll-timeline scroll-timeline-axis scroll-timeline-name scrollbar-3dlight-color \
    scrollbar-arrow-color scrollbar-base-color scrollbar-color scrollbar-darkshadow-color \
    scrollbar-face-color scrollbar-gutter scrollbar-highlight-color scrollbar-shadow-color \
    scrollbar-track-color scrollbar-width shape-image-threshold shape-inside shape-margin \
    shape-outside shape-padding shape-rendering shape-subtract size slider-orientation \
    solid-color solid-opacity spatial-navigation-action spatial-navigation-contain \
    spatial-navigation-function speak speak-as speak-header speak-numeral speak-punctuation \
    speech-rate stop-color stop-opacity stress string-set stroke stroke-align stroke-alignment \
    stroke-break stroke-color stroke-dash-corner stroke-dash-justify stroke-dashadjust \
    stroke-dasharray stroke-dashcorner stroke-dashoffset stroke-image stroke-linecap \
    stroke-linejoin stroke-miterlimit stroke-opacity stroke-origin stroke-position stroke-size \
    stroke-width tab-size table-layout text-align text-align-all text-align-last text-anchor \
    text-autospace text-box text-box-edge text-box-trim text-combine-upright text-decoration \
    text-decoration-color text-decoration-line text-decoration-skip text-decoration-skip-box \
    text-decoration-skip-ink text-decoration-skip-inset text-decoration-skip-self \
    text-decoration-skip-spaces text-decoration-style text-decoration-thickness \
    text-decoration-trim text-edge text-emphasis text-emphasis-color text-emphasis-position \
    text-emphasis-skip text-emphasis-style text-fit text-group-align text-indent text-justify \
    text-justify-trim text-kashida-space text-line-through text-line-through-color \
    text-line-through-mode text-line-through-style text-line-through-width text-orientation \
    text-overflow text-overline text-overline-color text-overline-mode text-overline-style \
    text-overline-width text-rendering text-shadow text-size-adjust text-space-collapse \
    text-space-trim text-spacing-trim text-transform text-underline text-underline-color \
    text-underline-mode text-underline-offset text-underline-position text-underline-style \
    text-underline-width text-wrap text-wrap-mode text-wrap-style timeline-scope \
    timeline-trigger timeline-trigger-activation-range timeline-trigger-activation-range-end \
    timeline-trigger-activation-range-start timeline-trigger-active-range \
    timeline-trigger-active-range-end timeline-trigger-active-range-start \
    timeline-trigger-name timeline-trigger-source top touch-action transform transform-box \
    transform-origin transform-style transition transition-behavior transition-delay \
    transition-duration transition-property transition-timing-function translate trigger-scope \
    unicode-bidi user-select vector-effect vertical-align view-timeline view-timeline-axis \
    view-timeline-inset view-timeline-name view-transition-class view-transition-group \
    view-transition-name view-transition-scope visibility voice-balance voice-duration \
    voice-family voice-pitch voice-range voice-rate voice-stress voice-volume volume \
    white-space white-space-collapse white-space-trim widows width will-change window-drag \
    word-break word-space-transform word-spacing word-wrap word-wrap-inside wrap-after \
    wrap-before wrap-flow wrap-inside wrap-through writing-mode x y z-index zoom";

/// What only the blocks of at-rules have.
pub const DESCRIPTORS: &str = "\
    additive-symbols ascent-override base-palette bleed components descent-override fallback \
    font-display font-named-instance inherits initial-value line-gap-override marks max-zoom \
    min-zoom navigation negative orientation override-colors pad page-margin-safety \
    page-orientation panose-1 prefix range rendering-intent result size size-adjust speak-as \
    src subscript-position-override subscript-size-override suffix \
    superscript-position-override superscript-size-override symbols syntax system types \
    unicode-range user-zoom viewport-fit";

/// The at-rules, with the margin boxes of pages, the kinds of font features, and those of older drafts.
pub const AT_RULES: &str = "\
    annotation bottom-center bottom-left bottom-left-corner bottom-right bottom-right-corner \
    character-variant charset color-profile container counter-style custom-media \
    custom-selector document else font-face font-feature-values font-palette-values footnote \
    function historical-forms import keyframes layer left-bottom left-middle left-top media \
    namespace ornaments page position-try property right-bottom right-middle right-top scope \
    scroll-timeline starting-style styleset stylistic supports swash top-center top-left \
    top-left-corner top-right top-right-corner view-transition viewport when";

/// The media features of Media Queries 4 and 5, and those that they call deprecated.
pub const MEDIA_FEATURES: &str = "\
    any-hover any-pointer aspect-ratio color color-gamut color-index device-aspect-ratio \
    device-height device-posture device-width display-mode dynamic-range environment-blending \
    forced-colors grid height horizontal-viewport-segments hover inverted-colors \
    max-aspect-ratio max-color max-color-index max-device-aspect-ratio max-device-height \
    max-device-width max-height max-monochrome max-resolution max-width min-aspect-ratio \
    min-color min-color-index min-device-aspect-ratio min-device-height min-device-width \
    min-height min-monochrome min-resolution min-width monochrome nav-controls orientation \
    overflow-block overflow-inline pointer prefers-color-scheme prefers-contrast \
    prefers-reduced-data prefers-reduced-motion prefers-reduced-transparency resolution scan \
    scripting shape update vertical-viewport-segments video-color-gamut video-dynamic-range \
    width";

/// The pseudo-classes that Chromium 156 reads, those of drafts and of other browsers, and the pseudo-elements that CSS 2
/// writes with one colon.
pub const PSEUDO_CLASSES: &str = "\
    active active-view-transition active-view-transition-type after any-link autofill before \
    blank buffering checked corner-present current decrement default defined dir disabled \
    double-button empty enabled end first first-child first-letter first-line first-of-type \
    focus focus-visible focus-within fullscreen future has has-slotted heading horizontal host \
    host-context hover in-range increment indeterminate interest-source interest-target \
    invalid is lang last-child last-of-type left link local-link modal muted no-button not \
    nth-child nth-col nth-last-child nth-last-col nth-last-of-type nth-of-type only-child \
    only-of-type open optional out-of-range past paused picture-in-picture placeholder-shown \
    playing popover-open read-only read-write required right root scope seeking single-button \
    stalled start state target target-after target-before target-current target-within \
    user-invalid user-valid valid vertical visited volume-locked where window-inactive \
    xr-overlay";

/// The pseudo-elements that Chromium 156 reads, and those of other browsers.
pub const PSEUDO_ELEMENTS: &str = "\
    after backdrop before checkmark clear-icon color-swatch column cue cue-region \
    details-content field-component field-text file-selector-button first-letter first-line \
    footnote-call footnote-marker grammar-error highlight marker nth-fragment part \
    permission-icon picker picker-icon placeholder placeholder-icon reveal-icon scroll-button \
    scroll-marker scroll-marker-group search-text selection slider-fill slider-thumb \
    slider-track slotted spelling-error step-control step-down step-up target-text \
    view-transition view-transition-group view-transition-group-children \
    view-transition-image-pair view-transition-new view-transition-old";

/// The functions of values: those of MDN, of newer modules of CSS, and of filters and gradients of
/// old browsers.
pub const FUNCTIONS: &str = "\
    abs accumulate acos add alpha anchor anchor-size and annotation arc asin at-rule atan atan2 \
    attr autospace blur brightness calc calc-mix calc-size character-variant chroma circle clamp \
    color color-layers color-mix color-stop conic-gradient container container-progress content \
    contrast contrast-color control control-point corner corners cos counter counters cross \
    cross-fade cubic-bezier device-cmyk domain drop-shadow dropshadow dynamic-range-limit-mix \
    element ellipse emboss engrave env exp expression filter first first-valid fit-content fliph \
    flipv font-format font-tech format from glow gradient gray grayscale historical-forms hsl \
    hsla hue hue-rotate hwb hypot ident if image image-set inherit inset invert lab last layer \
    lch leader light light-dark linear linear-gradient local log mask matrix matrix3d max \
    max-content-min media media-document media-progress min minmax mod not nth-item oklab oklch \
    opacity or ornaments paint palette-mix param path perspective polygon pow progress \
    radial-gradient random random-item ray rect regexp rem repeat repeating-conic-gradient \
    repeating-linear-gradient repeating-radial-gradient reversed rgb rgba rotate rotate3d rotatex \
    rotatey rotatez round running saturate scale scale3d scalex scaley scalez scroll selector \
    sepia shadow shape sibling-count sibling-index sign sin skew skewx skewy snap snap-block \
    snap-inline snapinterval snaplist spring sqrt src start steps string stripes style styleset \
    stylistic stylize superellipse supports swash symbols tan target-counter target-counters \
    target-text tech to toggle translate translate3d translatex translatey translatez type url \
    url-prefix var view wave wq xray xywh";

/// The units of dimensions.
pub const UNITS: &str = "\
    cap ch cm cqb cqh cqi cqmax cqmin cqw db deg dpcm dpi dppx dvb dvh dvi dvmax dvmin dvw em \
    ex fr grad hz ic in khz lh lvb lvh lvi lvmax lvmin lvw mm ms pc pt px q rad rcap rch rem \
    rex ric rlh s st svb svh svi svmax svmin svw turn vb vh vi vmax vmin vw x";

/// The functions with calculations in them.
pub const MATH_FUNCTIONS: &str = "\
    -moz-calc -webkit-calc abs acos asin atan atan2 calc calc-size clamp cos exp hypot log max \
    min mod pow rem round sign sin sqrt tan";

/// The types of elements of HTML, SVG and MathML, also those that are obsolete, as TypeScript has them in its `lib.dom`, and
/// older ones.
pub const TYPES: &str = "\
    a abbr acronym address altglyph altglyphdef altglyphitem animate animatecolor \
    animatemotion animatetransform annotation annotation-xml applet area article aside audio b \
    base basefont bdi bdo bgsound big blink blockquote body br button canvas caption center \
    circle cite clippath code col colgroup color-profile command cursor data datalist dd defs \
    del desc details dfn dialog dir discard div dl dt ellipse em embed feblend fecolormatrix \
    fecomponenttransfer fecomposite feconvolvematrix fediffuselighting fedisplacementmap \
    fedistantlight fedropshadow feflood fefunca fefuncb fefuncg fefuncr fegaussianblur feimage \
    femerge femergenode femorphology fencedframe feoffset fepointlight fespecularlighting \
    fespotlight fetile feturbulence fieldset figcaption figure filter font font-face \
    font-face-format font-face-name font-face-src font-face-uri footer foreignobject form \
    frame frameset g geolocation glyph glyphref h1 h2 h3 h4 h5 h6 hatch hatchpath head header \
    hgroup hkern hr html i iframe image img input ins isindex kbd keygen label layer legend li \
    line lineargradient link listing maction main maligngroup malignmark map mark marker \
    marquee mask math menclose menu menuitem merror mesh meshgradient meshpatch meshrow meta \
    metadata meter mfenced mglyph mi missing-glyph mlabeledtr mlongdiv mmultiscripts mn mo \
    mover mpadded mpath mphantom mprescripts mroot mrow ms mscarries mscarry msgroup msline \
    mspace msqrt msrow mstack mstyle msub msubsup msup mtable mtd mtext mtr multicol munder \
    munderover nav nextid nobr noembed noframes none noscript object ol optgroup option output \
    p param path pattern picture plaintext polygon polyline portal pre progress q \
    radialgradient rb rect rp rt rtc ruby s samp script search section select selectedcontent \
    selectlist semantics set slot small solidcolor source spacer span stop strike strong style \
    sub summary sup svg switch symbol table tbody td template text textarea textpath tfoot th \
    thead time title tr track tref tspan tt u ul use var video view vkern wbr xmp";
